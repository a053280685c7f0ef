//! The bound on turns at each kind of turn: programs with the outcomes that the
//! rules of `docs/MEANING.md` give them, worked out by hand.

/// Where one more turn would begin.
pub const CUTS: &str = "
~ cut_while: run - - --turns=2
Procedure p(G: Graph; s: Int) { While (s < 3) { s++; } }
%%
=>
cut after 2 turns
~ not_cut_while: run - - --turns=3
Procedure p(G: Graph; s: Int) { While (s < 3) { s++; } }
%%
=>
s = 3
turns 3
~ cut_do: run - - --turns=0
Procedure p(G: Graph; s: Int) { Do { s = 1 / 0; } While (False); }
%%
=>
cut after 0 turns
~ cut_for: run - - --turns=2
Procedure p(G: Graph; s: Int) { For (n: G.Nodes) (False) { s = 1; } }
%%
1 2
3 3
=>
cut after 2 turns
~ cut_forwards: run - - s=1 --turns=2
Procedure p(G: Graph, s: Node; c: N_P<Int>) { InBFS (v: G.Nodes From s) { v.c = 1; } }
%%
1 2
2 3
=>
cut after 2 turns
~ cut_backwards: run - - s=1 --turns=5
Procedure p(G: Graph, s: Node; c: N_P<Int>) { InBFS (v: G.Nodes From s) { v.c = 1; } InReverse { v.c = 2; } }
%%
1 2
2 3
=>
cut after 5 turns
~ cut_after_a_search: run - - s=1 --turns=7
Procedure p(G: Graph, s: Node; c: N_P<Int>) { InBFS (v: G.Nodes From s) { v.c = 1; } While (True) { ; } }
%%
1 2
2 3
=>
cut after 7 turns
~ fault_before_the_cut: run - - --turns=9
Procedure p(G: Graph; s, x: Int) { While (True) { s = s + 1; x = 6 / (3 - s); } }
%%
=>
fault DivideByZero at 1:68
~ while_counts_where_it_stands: run - - --turns=0
Procedure p(G: Graph; s: Int) { While (False) { s = 1; } Foreach (n: G.Nodes) { s += 1; } }
%%
1 2
=>
s = 2
turns 0
";

/// The bound over the whole run, and what comes before the cut.
pub const MORE_CUTS: &str = "
~ condition_before_the_cut: run - - z=0 --turns=0
Procedure p(G: Graph, z: Int; a: Int) { While (1 / z > 0) { a = 1; } }
%%
=>
fault DivideByZero at 1:50
~ cut_while_at_once: run - - --turns=0
Procedure p(G: Graph; a: Int) { While (True) { a = 1 / 0; } }
%%
=>
cut after 0 turns
~ cut_for_at_once: run - - --turns=0
Procedure p(G: Graph; a: Int) { For (n: G.Nodes) (1 / 0 > 0) { a = 1; } }
%%
1 2
2 3
=>
cut after 0 turns
~ for_as_many_as_nodes: run - - --turns=3
Procedure p(G: Graph; a: Int) { For (n: G.Nodes) (False) { a = 1; } }
%%
1 2
2 3
=>
a = 0
turns 3
~ fault_in_a_for_before_the_cut: run - - --turns=2
Procedure p(G: Graph; a: Int) { For (n: G.Nodes) { a = 1 / (1 - a); } }
%%
1 2
2 3
=>
fault DivideByZero at 1:58
~ cut_search_at_once: run - - s=1 --turns=0
Procedure p(G: Graph, s: Node; c: N_P<Int>) { InBFS (v: G.Nodes From s) { v.c = 1 / 0; } }
%%
1 2
2 3
=>
cut after 0 turns
~ nil_root_before_the_cut: run - - s=NIL --turns=0
Procedure p(G: Graph, s: Node; c: N_P<Int>) { InBFS (v: G.Nodes From s) { v.c = 1; } }
%%
1 2
2 3
=>
fault NilNode at 1:70
~ cut_between_the_ways: run - - s=1 --turns=3
Procedure p(G: Graph, s: Node; c: N_P<Int>) { InBFS (v: G.Nodes From s) { v.c = 1; } InReverse { v.c = 1 / 0; } }
%%
1 2
2 3
=>
cut after 3 turns
~ both_ways_as_many_as_levels: run - - s=1 --turns=6
Procedure p(G: Graph, s: Node; c: N_P<Int>) { InBFS (v: G.Nodes From s) { v.c = 1; } InReverse { v.c = 2; } }
%%
1 2
2 3
=>
node c
1 2
2 2
3 2
turns 6
~ levels_count_though_none_passes: run - - s=1 --turns=5
Procedure p(G: Graph, s: Node; c: N_P<Int>) { InBFS (v: G.Nodes From s) (False) { v.c = 1; } InReverse (False) { v.c = 2; } }
%%
1 2
2 3
=>
cut after 5 turns
~ bound_over_the_whole_run: run - - --turns=5
Procedure p(G: Graph; a, b: Int) { While (a < 2) { a++; } For (n: G.Nodes) { b++; } Do { b++; } While (False); }
%%
1 2
2 3
=>
cut after 5 turns
~ whole_run_at_the_bound: run - - --turns=6
Procedure p(G: Graph; a, b: Int) { While (a < 2) { a++; } For (n: G.Nodes) { b++; } Do { b++; } While (False); }
%%
1 2
2 3
=>
a = 2
b = 4
turns 6
~ inner_turns_count: run - - --turns=7
Procedure p(G: Graph; a: Int) { Do { For (n: G.Nodes) { a++; } } While (a < 6); }
%%
1 2
2 3
=>
cut after 7 turns
~ inner_turns_at_the_bound: run - - --turns=8
Procedure p(G: Graph; a: Int) { Do { For (n: G.Nodes) { a++; } } While (a < 6); }
%%
1 2
2 3
=>
a = 6
turns 8
~ return_takes_no_turn: run - - --turns=1
Procedure p(G: Graph; a: Int) : Int { While (True) { a++; Return a; } }
%%
1 2
2 3
=>
a = 1
return = 1
turns 1
~ fault_in_the_last_turn: run - - --turns=2
Procedure p(G: Graph; a: Int) { While (True) { a = a + 1; a = a + 0 / (2 - a); } }
%%
=>
fault DivideByZero at 1:69
~ last_condition_faults: run - - --turns=2
Procedure p(G: Graph; a: Int) { a = 2; While (6 / a > 0) { a = a - 1; } }
%%
=>
fault DivideByZero at 1:49
~ no_turns_are_needed: run - - --turns=0
Procedure p(G: Graph; a: Int, q: N_P<Int>) { G.q = 2; Foreach (n: G.Nodes) { a += n.q; } If (a > 0) { a = a + 1; } }
%%
1 2
2 3
=>
a = 7
node q
1 2
2 2
3 2
turns 0
~ most_turns: run - - --turns 9223372036854775807
Procedure p(G: Graph; a: Int) { While (a < 4) { a++; } }
%%
=>
a = 4
turns 4
";
