//! Trees and what becomes of them, as source text.

use crate::compare::all_read;
use crate::passes::{ALL_STEPS, ASKED, FLIPPED, Pass, pass_named};
use crate::runs::{Frame, source_after};
use gm_tables::{is_line, sides};
use std::alloc::Global;
use std::process::Abort;
use std::test::Fail;

// The first so many of all passes.
fn first_steps(count: usize) -> &'static [Pass] {
    ALL_STEPS.get(..count).unwrap_or(&ALL_STEPS)
}

/// The passes up to one, and the frame of the bodies that they take. Those of the sequential phase come one after another.
pub fn road_to(pass: Pass) -> (Frame, &'static [Pass]) {
    match pass {
        Pass::GroupsOut => (Frame::Plain, first_steps(1)),
        Pass::CompoundsOut => (Frame::Plain, first_steps(2)),
        Pass::LiteralsOut => (Frame::Plain, first_steps(3)),
        Pass::ConditionsOut => (Frame::Plain, first_steps(4)),
        Pass::ReadsOut => (Frame::Plain, first_steps(5)),
        Pass::PicksOut => (Frame::Plain, first_steps(6)),
        Pass::AccessesOut => (Frame::Plain, first_steps(7)),
        Pass::FoldsOut => (Frame::Plain, first_steps(8)),
        Pass::BfsOut => (Frame::Once, &[Pass::BfsOut]),
        Pass::DesugarPhases => (Frame::Once, &[Pass::DesugarPhases]),
        Pass::DeferredOut => (Frame::Plain, &[Pass::DeferredOut]),
        Pass::SaveConditions => (Frame::Plain, &[Pass::SaveConditions]),
        Pass::LocalsOut => (Frame::Plain, &[Pass::LocalsOut]),
        Pass::CutBodies => (Frame::Plain, &[Pass::CutBodies]),
        Pass::Flip => (Frame::Plain, &FLIPPED),
        Pass::Outward => (Frame::Plain, &ASKED),
        _ => (Frame::Plain, &[Pass::Desugar]),
    }
}

// A pass, a body and what becomes of it: the first passes of the sequential phase.
const STEP_TREES: &str = "
GroupsOut: G.a = 1; => { Foreach (G: G.Nodes) G.a = 1; }
GroupsOut: If (x == 0) { G.a = G.b + 1; } Else { G.f = G.OutDegree() > 1; } => { If ((x == 0)) { Foreach (G: G.Nodes) G.a = (G.b + 1); } Else { Foreach (G: G.Nodes) G.f = (G.OutDegree() > 1); } }
GroupsOut: While (x < 3) { G.a = x; x += 1; } => { While ((x < 3)) { Foreach (G: G.Nodes) G.a = x; x += 1; } }
GroupsOut: For (n: G.Nodes)(n.f) { G.a = G.a + 1; } => { For (n: G.Nodes) (n.f) { Foreach (G: G.Nodes) G.a = (G.a + 1); } }
CompoundsOut: x += 2; q &&= 1 / x > 0; q ||= nil.f; => { x = (x + 2); q = (q && ((1 / x) > 0)); q = (q || nil.f); }
CompoundsOut: x++; nil.a *= 3; z += x; => { x = (x + 1); nil.a = (nil.a * 3); z = (z + (Long) (x)); }
CompoundsOut: x min= y; <x; s> max= <y; nil>; => { x min= y; <x; s> max= <y; nil>; }
CompoundsOut: Foreach (n: G.Nodes) { Int i = 2; i *= 3; n.a += i; n.b max= i; x += i; Foreach (t: n.Nbrs) { Int j; j += 1; t.c += j; i += j; } } => { Foreach (n: G.Nodes) { Int i = 2; i = (i * 3); n.a = (n.a + i); n.b max= i; x += i; Foreach (t: n.Nbrs) { { Int j; } j = (j + 1); t.c += j; i += j; } } }
CompoundsOut: Foreach (n: G.Nodes) { <n.a; n.f> min= <n.OutDegree(); (n.c > 0)>; Foreach (t: n.Nbrs) { <t.b; t.r> max= <n.c; n>; } } => { Foreach (n: G.Nodes) { <n.a; n.f> min= <n.OutDegree(); (n.c > 0)>; Foreach (t: n.Nbrs) { <t.b; t.r> max= <n.c; n>; } } }
LiteralsOut: x = -1; y = -x; z = -INF; y = -(-3); x = -2147483647 - 1; => { x = -1; y = -(x); z = -9223372036854775808L; y = 3; x = (-2147483647 - 1); }
LiteralsOut: Foreach (n: G.Nodes)(n.OutDegree() > -1) { n.a = -4 * -n.b; Foreach (t: n.Nbrs)(-1 < x) { t.c += -1; } } => { Foreach (n: G.Nodes) ((n.OutDegree() > -1)) { n.a = (-4 * -(n.b)); Foreach (t: n.Nbrs) ((-1 < x)) { t.c += -1; } } }
LiteralsOut: While (x > -3) { x += -1; } If (-1 < x) { y = -9223372036854775807 < z ? -1 : -y; } => { While ((x > -3)) { x = (x + -1); } If ((-1 < x)) { y = ((-9223372036854775807L < z) ? -1 : -(y)); } }
ConditionsOut: If (x < 3 && q) { y = 1; } => Bool v14; { If (((x < 3) && q)) { y = 1; } }
ConditionsOut: If (nil.a > 0) { y = 1; } Else { If (nil.f) { y = 2; } } => Bool v14; { { v14 = (nil.a > 0); If (v14) { y = 1; } Else { { v14 = nil.f; If (v14) { y = 2; } } } } }
ConditionsOut: While (x < 3) { x = x + 1; } => Bool v14; { While ((x < 3)) { x = (x + 1); } }
ConditionsOut: While (Exist(n: G.Nodes){n.a < x}) { x = x + 1; } => Bool v15; { { v15 = Exist(n: G.Nodes){(n.a < x)}; While (v15) { { x = (x + 1); } v15 = Exist(n: G.Nodes){(n.a < x)}; } } }
ConditionsOut: Do { x = x + 1; } While (1 / nil.a > 0); => Bool v14; { Do { { x = (x + 1); } v14 = ((1 / nil.a) > 0); } While (v14); }
ConditionsOut: For (n: G.Nodes)(n.a > 0) { x = n.b; } => Bool v15; { For (n: G.Nodes) { v15 = (n.a > 0); If (v15) { x = n.b; } } }
ConditionsOut: For (n: G.Nodes)(x < 3) { x = x + 1; } => Bool v15; { For (n: G.Nodes) ((x < 3)) { x = (x + 1); } }
ConditionsOut: If (nil.a > 0) { x = 1; } Else { x = 2; } While (nil.f) { Do { x += 1; } While (nil.OutDegree() > x); } => Bool v14; { { v14 = (nil.a > 0); If (v14) { x = 1; } Else { x = 2; } } { v14 = nil.f; While (v14) { { Do { { x = (x + 1); } v14 = (nil.OutDegree() > x); } While (v14); } v14 = nil.f; } } }
";

// A pass, a body and what becomes of it: the passes of reads, picks, accesses and reductions.
const PHASE_TREES: &str = "
ReadsOut: x = nil.a + 6 / x; => Bool v14; Int v15; { { v15 = nil.a; x = (v15 + (6 / x)); } }
ReadsOut: x = nil.a; y = Sum(n: G.Nodes){n.a}; Int i = nil.b; s = nil.r; => Bool v16; { x = nil.a; y = Sum(n: G.Nodes){n.a}; Int i = nil.b; s = nil.r; }
ReadsOut: x = 6 / x + Sum(n: G.Nodes){1 / n.a} * nil.b; => Bool v15; Int v16; Int v17; { { v16 = Sum(n: G.Nodes){(1 / n.a)}; v17 = nil.b; x = ((6 / x) + (v16 * v17)); } }
ReadsOut: q = x == 0 || Exist(n: G.Nodes){n.f}; => Bool v15; Bool v16; { { v16 = Exist(n: G.Nodes){n.f}; q = ((x == 0) || v16); } }
ReadsOut: x = q ? nil.a : nil.b; => Bool v14; Int v15; Int v16; { { v15 = nil.a; v16 = nil.b; x = (q ? v15 : v16); } }
ReadsOut: nil.a = Sum(n: G.Nodes){1 / n.b}; => Bool v15; Int v16; { { v16 = Sum(n: G.Nodes){(1 / n.b)}; nil.a = v16; } }
ReadsOut: nil.a = 1 / x; => Bool v14; { nil.a = (1 / x); }
ReadsOut: nil.a = nil.b + nil.OutDegree() * 2; => Bool v14; Int v15; Int v16; { { v15 = nil.b; v16 = nil.OutDegree(); nil.a = (v15 + (v16 * 2)); } }
PicksOut: x min= y + 1; => Bool v14; { { x min= (y + 1); } }
PicksOut: nil.a max= 2 * nil.b; => Bool v14; Node v15; Int v16; Int v17; { { v15 = Live(nil); v16 = nil.a; v17 = nil.b; v16 max= (2 * v17); v15.a = v16; } }
PicksOut: <nil.a; nil.r> min= <Sum(n: G.Nodes){n.a}; s>; => Bool v15; Node v16; Int v17; Node v18; Node v19; Int v20; { { v16 = Live(nil); v17 = nil.a; v18 = Live(nil); v19 = nil.r; v20 = Sum(n: G.Nodes){n.a}; <v17; v19> min= <v20; s>; v16.a = v17; v18.r = v19; } }
PicksOut: For (n: G.Nodes) { <n.a; n.b> min= <x; 2>; s.b max= x; } => Bool v15; Int v16; Int v17; Node v18; Int v19; { For (n: G.Nodes) { { v16 = n.a; v17 = n.b; <v16; v17> min= <x; 2>; n.a = v16; n.b = v17; } { v18 = Live(s); v19 = s.b; v19 max= x; v18.b = v19; } } }
AccessesOut: x = nil.a; => Bool v14; Node v15; inside Node v16; Int v17; Long v18; Bool v19; Node v20; { { v15 = Live(nil); x = Max(v16: v16.Nodes)((v16 == v15)){v16.a}; } }
AccessesOut: s = nil.r; q = nil.f; z = nil.l; x = nil.OutDegree(); => Bool v14; Node v15; inside Node v16; Int v17; Long v18; Bool v19; Node v20; { { v15 = Live(nil); s = Max(v16: v16.Nodes)((v16 == v15)){v16.r}; } { v15 = Live(nil); q = Exist(v16: v16.Nodes)((v16 == v15)){v16.f}; } { v15 = Live(nil); z = Max(v16: v16.Nodes)((v16 == v15)){v16.l}; } { v15 = Live(nil); x = Max(v16: v16.Nodes)((v16 == v15)){v16.OutDegree()}; } }
AccessesOut: nil.a = x + 1; nil.r = NIL; => Bool v14; Node v15; inside Node v16; Int v17; Long v18; Bool v19; Node v20; { { v15 = Live(nil); v17 = (x + 1); Foreach (v16: v16.Nodes) ((v16 == v15)) v16.a = v17; } { v15 = Live(nil); v20 = NIL; Foreach (v16: v16.Nodes) ((v16 == v15)) v16.r = v20; } }
AccessesOut: For (n: G.Nodes) { x = n.a; n.b = x; s = n; s.c = 1; } => Bool v15; Node v16; inside Node v17; Int v18; Long v19; Bool v20; Node v21; { For (n: G.Nodes) { x = Max(v17: v17.Nodes)((v17 == n)){v17.a}; { v18 = x; Foreach (v17: v17.Nodes) ((v17 == n)) v17.b = v18; } s = n; { v16 = Live(s); v18 = 1; Foreach (v17: v17.Nodes) ((v17 == v16)) v17.c = v18; } } }
FoldsOut: x = Sum(n: G.Nodes)(n.f){n.a}; y = Product(n: G.Nodes){n.a}; => Bool v16; Node v17; inside Node v18; Int v19; Long v20; Bool v21; Node v22; { { x = 0; Foreach (n: G.Nodes) (n.f) x += n.a; } { y = 1; Foreach (n: G.Nodes) y *= n.a; } }
FoldsOut: x = Min(n: G.Nodes){n.a}; z = Max(n: G.Nodes){n.l}; => Bool v16; Node v17; inside Node v18; Int v19; Long v20; Bool v21; Node v22; { { x = 2147483647; Foreach (n: G.Nodes) x min= n.a; } { z = -9223372036854775808L; Foreach (n: G.Nodes) z max= n.l; } }
FoldsOut: x = Count(n: G.Nodes)(n.f){n.a > 0}; y = Count(n: G.Nodes)(n.f); => Bool v16; Node v17; inside Node v18; Int v19; Long v20; Bool v21; Node v22; { { x = 0; Foreach (n: G.Nodes) (n.f) If ((n.a > 0)) x += 1; } { y = 0; Foreach (n: G.Nodes) (n.f) If (True) y += 1; } }
FoldsOut: q = Exist(n: G.Nodes)(n.a > 0){n.f}; q = All(n: G.Nodes)(n.a > 0){n.f}; => Bool v16; Node v17; inside Node v18; Int v19; Long v20; Bool v21; Node v22; { { q = False; Foreach (n: G.Nodes) ((n.a > 0)) q ||= n.f; } { q = True; Foreach (n: G.Nodes) ((n.a > 0)) q &&= n.f; } }
FoldsOut: x = Sum(n: G.Nodes){x}; => Bool v15; Int v16; Node v17; inside Node v18; Int v19; Long v20; Bool v21; Node v22; { { { v16 = 0; Foreach (n: G.Nodes) v16 += x; } x = v16; } }
DesugarPhases: Return 1 + Sum(n: G.Nodes){n.a}; => Bool v13; Int v14; Node v15; inside Node v16; Int v17; Long v18; Bool v19; Node v20; { { { v14 = 0; Foreach (n: G.Nodes) v14 += n.a; } Return (1 + v14); } }
DesugarPhases: If (q) { Return m.a; } Return x; => Bool v12; Int v13; Node v14; inside Node v15; Int v16; Long v17; Bool v18; Node v19; { If (q) { { { v14 = Live(m); { v13 = -2147483648; Foreach (v15: v15.Nodes) ((v15 == v14)) v13 max= v15.a; } } Return v13; } } Return x; }
";

// A pass, a body and what becomes of it: all passes up to plain loops.
const LOOP_TREES: &str = "
Desugar: Foreach (n: G.Nodes) { n.a = 1 + Sum(t: n.Nbrs)(t.f){t.c} * Count(t: n.InNbrs)(t.f){t.b > 0}; } => Bool v17; Node v18; inside Node v19; Int v20; Long v21; Bool v22; Node v23; inside Int v24; inside Int v25; { Foreach (n: G.Nodes) { { Int v24 = 0; Foreach (t: n.Nbrs) (t.f) v24 += t.c; Int v25 = 0; Foreach (t: n.InNbrs) ((t.f && (t.b > 0))) v25 += 1; n.a = (1 + (v24 * v25)); } } }
Desugar: Foreach (n: G.Nodes)(n.f && Exist(t: n.Nbrs)(t.f)) { n.a = 1; } => Bool v16; Node v17; inside Node v18; Int v19; Long v20; Bool v21; Node v22; inside Bool v23; { Foreach (n: G.Nodes) { Bool v23 = False; Foreach (t: n.Nbrs) (t.f) v23 ||= True; If ((n.f && v23)) { n.a = 1; } } }
Desugar: Foreach (n: G.Nodes) { If (All(t: n.Nbrs){t.f}) { Int i = Max(t: n.Nbrs){t.a}; n.b = i; } Else { x += Count(t: n.Nbrs); } } => Bool v19; Node v20; inside Node v21; Int v22; Long v23; Bool v24; Node v25; inside Bool v26; inside Int v27; inside Int v28; { Foreach (n: G.Nodes) { { Bool v26 = True; Foreach (t: n.Nbrs) v26 &&= t.f; If (v26) { { Int v27 = -2147483648; Foreach (t: n.Nbrs) v27 max= t.a; Int i = v27; } n.b = i; } Else { { Int v28 = 0; Foreach (t: n.Nbrs) ((True && True)) v28 += 1; x += v28; } } } } }
Desugar: Foreach (n: G.Nodes) { n.a <= Sum(t: n.InNbrs){t.a} @ n; } => Bool v16; Node v17; inside Node v18; Int v19; Long v20; Bool v21; Node v22; inside Int v23; { Foreach (n: G.Nodes) { { Int v23 = 0; Foreach (t: n.InNbrs) v23 += t.a; n.a <= v23 @; } } }
Desugar: x = 6 / y + Sum(n: G.Nodes){1 / n.a}; => Bool v15; Int v16; Node v17; inside Node v18; Int v19; Long v20; Bool v21; Node v22; { { { v16 = 0; Foreach (n: G.Nodes) v16 += (1 / n.a); } x = ((6 / y) + v16); } }
Desugar: Foreach (n: G.Nodes) { n.a = 1 / n.b + Sum(t: n.Nbrs){6 / t.b}; } => Bool v16; Node v17; inside Node v18; Int v19; Long v20; Bool v21; Node v22; inside Int v23; { Foreach (n: G.Nodes) { { Int v23 = 0; Foreach (t: n.Nbrs) v23 += (6 / t.b); n.a = ((1 / n.b) + v23); } } }
Desugar: q &&= nil.f; => Bool v14; Bool v15; Node v16; inside Node v17; Int v18; Long v19; Bool v20; Node v21; { { { v16 = Live(nil); { v15 = False; Foreach (v17: v17.Nodes) ((v17 == v16)) v15 ||= v17.f; } } q = (q && v15); } }
Desugar: Do { x += 1; } While (1 / nil.a > 0); => Bool v14; Int v15; Node v16; inside Node v17; Int v18; Long v19; Bool v20; Node v21; { Do { { x = (x + 1); } { { v16 = Live(nil); { v15 = -2147483648; Foreach (v17: v17.Nodes) ((v17 == v16)) v15 max= v17.a; } } v14 = ((1 / v15) > 0); } } While (v14); }
Desugar: While (Sum(n: G.Nodes){n.a} < 9) { G.a = x; x += 1; } => Bool v15; Int v16; Int v17; Node v18; inside Node v19; Int v20; Long v21; Bool v22; Node v23; { { { { v16 = 0; Foreach (n: G.Nodes) v16 += n.a; } v15 = (v16 < 9); } While (v15) { { Foreach (G: G.Nodes) G.a = x; x = (x + 1); } { { v17 = 0; Foreach (n: G.Nodes) v17 += n.a; } v15 = (v17 < 9); } } } }
Desugar: For (n: G.Nodes) { If (n.a > 1) { Return; } } => Bool v15; Int v16; Node v17; inside Node v18; Int v19; Long v20; Bool v21; Node v22; { For (n: G.Nodes) { { { { v16 = -2147483648; Foreach (v18: v18.Nodes) ((v18 == n)) v16 max= v18.a; } v15 = (v16 > 1); } If (v15) { Return; } } } }
Desugar: x = Sum(n: G.Nodes)(Exist(t: n.Nbrs){t.f}){Sum(t: n.InNbrs){t.a}}; => Bool v17; Node v18; inside Node v19; Int v20; Long v21; Bool v22; Node v23; inside Bool v24; inside Int v25; { { x = 0; Foreach (n: G.Nodes) { Bool v24 = False; Foreach (t: n.Nbrs) v24 ||= t.f; If (v24) { Int v25 = 0; Foreach (t: n.InNbrs) v25 += t.a; x += v25; } } } }
Desugar: x = Sum(n: G.Nodes){n.a} + Sum(n: G.Nodes){n.b}; => Bool v16; Int v17; Int v18; Node v19; inside Node v20; Int v21; Long v22; Bool v23; Node v24; { { { v17 = 0; Foreach (n: G.Nodes) v17 += n.a; } { v18 = 0; Foreach (n: G.Nodes) v18 += n.b; } x = (v17 + v18); } }
Desugar: InBFS (v: G.Nodes From nil)(Count(t: v.Nbrs) > 0) { v.a = Sum(t: v.UpNbrs){t.b}; } InReverse (Exist(t: v.Nbrs){t.f}) { v.b = Count(t: v.DownNbrs)(t.f); } => Bool v19; Node v20; inside Node v21; Int v22; Long v23; Bool v24; Node v25; Node v26; inside Int v27; inside Int v28; inside Bool v29; inside Int v30; { { v26 = Live(nil); InBFS (v: G.Nodes From nil) { Int v27 = 0; Foreach (t: v.Nbrs) ((True && True)) v27 += 1; If ((v27 > 0)) { { Int v28 = 0; Foreach (t: v.UpNbrs) v28 += t.b; v.a = v28; } } } InReverse { Bool v29 = False; Foreach (t: v.Nbrs) v29 ||= t.f; If (v29) { { Int v30 = 0; Foreach (t: v.DownNbrs) ((t.f && True)) v30 += 1; v.b = v30; } } } } }
Desugar: For (n: G.Nodes) { InBFS (v: G.Nodes From n)(Exist(t: v.Nbrs){t.f}) { v.a = 1; } } => Bool v17; Node v18; inside Node v19; Int v20; Long v21; Bool v22; Node v23; inside Bool v24; { For (n: G.Nodes) { InBFS (v: G.Nodes From n) { Bool v24 = False; Foreach (t: v.Nbrs) v24 ||= t.f; If (v24) { v.a = 1; } } } }
Desugar: G.a = -3; nil.b = Sum(n: G.Nodes){n.a}; => Bool v15; Int v16; Node v17; inside Node v18; Int v19; Long v20; Bool v21; Node v22; { Foreach (G: G.Nodes) G.a = -3; { { v16 = 0; Foreach (n: G.Nodes) v16 += n.a; } { v17 = Live(nil); v19 = v16; Foreach (v18: v18.Nodes) ((v18 == v17)) v18.b = v19; } } }
Desugar: <x; y> max= <nil.a; Sum(n: G.Nodes){1 / n.a}>; => Bool v15; Int v16; Int v17; Node v18; inside Node v19; Int v20; Long v21; Bool v22; Node v23; { { { v18 = Live(nil); { v16 = -2147483648; Foreach (v19: v19.Nodes) ((v19 == v18)) v16 max= v19.a; } } { v17 = 0; Foreach (n: G.Nodes) v17 += (1 / n.a); } <x; y> max= <v16; v17>; } }
Desugar: Foreach (n: G.Nodes)(1 / n.b > Product(t: n.InNbrs){t.c}) { n.a = Min(u: n.Nbrs)(u.f){u.c}; } => Bool v17; Node v18; inside Node v19; Int v20; Long v21; Bool v22; Node v23; inside Int v24; inside Int v25; { Foreach (n: G.Nodes) { Int v24 = 1; Foreach (t: n.InNbrs) v24 *= t.c; If (((1 / n.b) > v24)) { { Int v25 = 2147483647; Foreach (u: n.Nbrs) (u.f) v25 min= u.c; n.a = v25; } } } }
Desugar: Foreach (n: G.Nodes) { n.a = 1; } => Bool v15; Node v16; inside Node v17; Int v18; Long v19; Bool v20; Node v21; { Foreach (n: G.Nodes) { n.a = 1; } }
Desugar: Foreach (n: G.Nodes) { n.a = Sum(t: n.Nbrs){1}; } => Bool v16; Node v17; inside Node v18; Int v19; Long v20; Bool v21; Node v22; inside Int v23; { Foreach (n: G.Nodes) { { Int v23 = 0; Foreach (t: n.Nbrs) v23 += 1; n.a = v23; } } }
Desugar: Foreach (n: G.Nodes)(Sum(t: n.Nbrs){1} > 0) { n.a = Sum(t: n.Nbrs){1} * Sum(t: n.InNbrs){1}; } => Bool v18; Node v19; inside Node v20; Int v21; Long v22; Bool v23; Node v24; inside Int v25; inside Int v26; inside Int v27; { Foreach (n: G.Nodes) { Int v25 = 0; Foreach (t: n.Nbrs) v25 += 1; If ((v25 > 0)) { { Int v26 = 0; Foreach (t: n.Nbrs) v26 += 1; Int v27 = 0; Foreach (t: n.InNbrs) v27 += 1; n.a = (v26 * v27); } } } }
Desugar: Foreach (n: G.Nodes) { If (Exist(t: n.Nbrs)(t.f)) { x += Count(t: n.Nbrs)(t.f); } } => Bool v17; Node v18; inside Node v19; Int v20; Long v21; Bool v22; Node v23; inside Bool v24; inside Int v25; { Foreach (n: G.Nodes) { { Bool v24 = False; Foreach (t: n.Nbrs) (t.f) v24 ||= True; If (v24) { { Int v25 = 0; Foreach (t: n.Nbrs) ((t.f && True)) v25 += 1; x += v25; } } } } }
Desugar: Foreach (n: G.Nodes)(n.f) { n.a = 1; } => Bool v15; Node v16; inside Node v17; Int v18; Long v19; Bool v20; Node v21; { Foreach (n: G.Nodes) (n.f) { n.a = 1; } }
Desugar: Foreach (n: G.Nodes)(n.f && Sum(t: n.Nbrs){1} > 0) { n.a = 1; } => Bool v16; Node v17; inside Node v18; Int v19; Long v20; Bool v21; Node v22; inside Int v23; { Foreach (n: G.Nodes) { Int v23 = 0; Foreach (t: n.Nbrs) v23 += 1; If ((n.f && (v23 > 0))) { n.a = 1; } } }
";

// A pass, a body and what becomes of it: the pass of searches.
const SEARCH_TREES: &str = "
BfsOut: InBFS (v: G.Nodes From s) { v.a = 1; } => Node v13; Int v14; Int v15; Int v16; Bool v17; Bool v18; N_P<Int> v19; N_P<Bool> v20; inside Node v21; inside Node v22; N_P<Node> v23; N_P<Int> v24; N_P<Node> v25; N_P<Int> v26; N_P<Int> v27; N_P<Int> v28; N_P<Bool> v29; N_P<Node> v30; N_P<Int> v31; N_P<Int> v32; N_P<Bool> v33; N_P<Node> v34; N_P<Node> v35; { { { v13 = Live(s); Foreach (v21: G.Nodes) v21.v19 = ((v21 == v13) ? 0 : 2147483647); v14 = 0; v17 = True; } While (v17) { v16 = (v14 + 1); { } v18 = False; Foreach (v21: G.Nodes) v21.v20 = (v21.v19 == v14); { } { Foreach (v: G.Nodes) (v.v20) { v.a = 1; } Foreach (v21: G.Nodes) (v21.v20) Foreach (v22: v21.Nbrs) v22.v19 min= v16; } Foreach (v21: G.Nodes) v18 ||= (v21.v19 == v16); v17 = v18; v14 = v16; } } }
BfsOut: InBFS (v: G.Nodes From s) (v != s) { Int k = 0; Foreach (t: v.UpNbrs)(t.f) { k += t.a; } v.a = k; } => Node v15; Int v16; Int v17; Int v18; Bool v19; Bool v20; N_P<Int> v21; N_P<Bool> v22; inside Node v23; inside Node v24; N_P<Node> v25; N_P<Int> v26; N_P<Node> v27; N_P<Int> v28; N_P<Int> v29; N_P<Int> v30; N_P<Bool> v31; N_P<Node> v32; N_P<Int> v33; N_P<Int> v34; N_P<Bool> v35; N_P<Node> v36; N_P<Node> v37; N_P<Int> v38; N_P<Node> v39; { { { v15 = Live(s); Foreach (v23: G.Nodes) v23.v21 = ((v23 == v15) ? 0 : 2147483647); v16 = 0; v19 = True; } While (v19) { v18 = (v16 + 1); v17 = (v16 - 1); v20 = False; Foreach (v23: G.Nodes) v23.v22 = (v23.v21 == v16); Foreach (v23: G.Nodes) { v23.v28 = v23.a; } { Foreach (v: G.Nodes) ((v.v22 && (v != s))) { Int k = 0; Foreach (t: v.InNbrs) (((t.v21 == v17) && t.f)) { k += t.v28; } v.a = k; } Foreach (v23: G.Nodes) (v23.v22) Foreach (v24: v23.Nbrs) v24.v21 min= v18; } Foreach (v23: G.Nodes) v20 ||= (v23.v21 == v18); v19 = v20; v16 = v18; } } }
BfsOut: InBFS (v: G.Nodes From s) { Foreach (t: v.DownNbrs) { v.c += t.b; } } => Node v14; Int v15; Int v16; Int v17; Bool v18; Bool v19; N_P<Int> v20; N_P<Bool> v21; inside Node v22; inside Node v23; N_P<Node> v24; N_P<Int> v25; N_P<Node> v26; N_P<Int> v27; N_P<Int> v28; N_P<Int> v29; N_P<Bool> v30; N_P<Node> v31; N_P<Int> v32; N_P<Int> v33; N_P<Bool> v34; N_P<Node> v35; N_P<Node> v36; N_P<Node> v37; { { { v14 = Live(s); Foreach (v22: G.Nodes) v22.v20 = ((v22 == v14) ? 0 : 2147483647); v15 = 0; v18 = True; } While (v18) { v17 = (v15 + 1); { } v19 = False; Foreach (v22: G.Nodes) v22.v21 = (v22.v20 == v15); { } { Foreach (v22: G.Nodes) (v22.v21) Foreach (v23: v22.Nbrs) v23.v20 min= v17; Foreach (v: G.Nodes) (v.v21) { Foreach (t: v.Nbrs) ((t.v20 == v17)) { v.c += t.b; } } } Foreach (v22: G.Nodes) v19 ||= (v22.v20 == v17); v18 = v19; v15 = v17; } } }
BfsOut: InBFS (v: G.Nodes From s) { v.a = 1; } InReverse (v != s) { v.b = 1; Foreach (t: v.DownNbrs) { x += t.b; } } => Node v14; Int v15; Int v16; Int v17; Bool v18; Bool v19; N_P<Int> v20; N_P<Bool> v21; inside Node v22; inside Node v23; N_P<Node> v24; N_P<Int> v25; N_P<Node> v26; N_P<Int> v27; N_P<Int> v28; N_P<Int> v29; N_P<Bool> v30; N_P<Node> v31; N_P<Int> v32; N_P<Int> v33; N_P<Bool> v34; N_P<Node> v35; N_P<Node> v36; N_P<Node> v37; { { { v14 = Live(s); Foreach (v22: G.Nodes) v22.v20 = ((v22 == v14) ? 0 : 2147483647); v15 = 0; v18 = True; } While (v18) { v17 = (v15 + 1); { } v19 = False; Foreach (v22: G.Nodes) v22.v21 = (v22.v20 == v15); { } { Foreach (v: G.Nodes) (v.v21) { v.a = 1; } Foreach (v22: G.Nodes) (v22.v21) Foreach (v23: v22.Nbrs) v23.v20 min= v17; } Foreach (v22: G.Nodes) v19 ||= (v22.v20 == v17); v18 = v19; v15 = v17; } { v15 = (v15 - 1); While ((v15 >= 0)) { v17 = (v15 + 1); { } Foreach (v22: G.Nodes) v22.v21 = (v22.v20 == v15); Foreach (v22: G.Nodes) { v22.v28 = v22.b; } Foreach (v: G.Nodes) ((v.v21 && (v != s))) { v.b = 1; Foreach (t: v.Nbrs) ((t.v20 == v17)) { x += t.v28; } } v15 = (v15 - 1); } } } }
BfsOut: InBFS (v: G.Nodes From s) { v.a <= v.b; Foreach (t: v.UpNbrs) { v.c max= t.a; } } => Node v14; Int v15; Int v16; Int v17; Bool v18; Bool v19; N_P<Int> v20; N_P<Bool> v21; inside Node v22; inside Node v23; N_P<Node> v24; N_P<Int> v25; N_P<Node> v26; N_P<Int> v27; N_P<Int> v28; N_P<Int> v29; N_P<Bool> v30; N_P<Node> v31; N_P<Int> v32; N_P<Int> v33; N_P<Bool> v34; N_P<Node> v35; N_P<Node> v36; N_P<Node> v37; { { { v14 = Live(s); Foreach (v22: G.Nodes) v22.v20 = ((v22 == v14) ? 0 : 2147483647); v15 = 0; v18 = True; } While (v18) { v17 = (v15 + 1); v16 = (v15 - 1); v19 = False; Foreach (v22: G.Nodes) v22.v21 = (v22.v20 == v15); { } { Foreach (v: G.Nodes) (v.v21) { v.a <= v.b @; Foreach (t: v.InNbrs) ((t.v20 == v16)) { v.c max= t.a; } } Foreach (v22: G.Nodes) (v22.v21) Foreach (v23: v22.Nbrs) v23.v20 min= v17; } Foreach (v22: G.Nodes) v19 ||= (v22.v20 == v17); v18 = v19; v15 = v17; } } }
BfsOut: While (x < 5) { InBFS (v: G.Nodes From s) { x += 1; } } => Node v13; Int v14; Int v15; Int v16; Bool v17; Bool v18; N_P<Int> v19; N_P<Bool> v20; inside Node v21; inside Node v22; N_P<Node> v23; N_P<Int> v24; N_P<Node> v25; N_P<Int> v26; N_P<Int> v27; N_P<Int> v28; N_P<Bool> v29; N_P<Node> v30; N_P<Int> v31; N_P<Int> v32; N_P<Bool> v33; N_P<Node> v34; N_P<Node> v35; { While ((x < 5)) { { { v13 = Live(s); Foreach (v21: G.Nodes) v21.v19 = ((v21 == v13) ? 0 : 2147483647); v14 = 0; v17 = True; } While (v17) { v16 = (v14 + 1); { } v18 = False; Foreach (v21: G.Nodes) v21.v20 = (v21.v19 == v14); { } { Foreach (v: G.Nodes) (v.v20) { x += 1; } Foreach (v21: G.Nodes) (v21.v20) Foreach (v22: v21.Nbrs) v22.v19 min= v16; } Foreach (v21: G.Nodes) v18 ||= (v21.v19 == v16); v17 = v18; v14 = v16; } } } }
BfsOut: InBFS (v: G.Nodes From s) { ; } => Node v13; Int v14; Int v15; Int v16; Bool v17; Bool v18; N_P<Int> v19; N_P<Bool> v20; inside Node v21; inside Node v22; N_P<Node> v23; N_P<Int> v24; N_P<Node> v25; N_P<Int> v26; N_P<Int> v27; N_P<Int> v28; N_P<Bool> v29; N_P<Node> v30; N_P<Int> v31; N_P<Int> v32; N_P<Bool> v33; N_P<Node> v34; N_P<Node> v35; { { { v13 = Live(s); Foreach (v21: G.Nodes) v21.v19 = ((v21 == v13) ? 0 : 2147483647); v14 = 0; v17 = True; } While (v17) { v16 = (v14 + 1); { } v18 = False; Foreach (v21: G.Nodes) v21.v20 = (v21.v19 == v14); { } { { } Foreach (v21: G.Nodes) (v21.v20) Foreach (v22: v21.Nbrs) v22.v19 min= v16; } Foreach (v21: G.Nodes) v18 ||= (v21.v19 == v16); v17 = v18; v14 = v16; } } }
BfsOut: InBFS (v: G.Nodes From s) { ; } InReverse { v.a = 1; } => Node v13; Int v14; Int v15; Int v16; Bool v17; Bool v18; N_P<Int> v19; N_P<Bool> v20; inside Node v21; inside Node v22; N_P<Node> v23; N_P<Int> v24; N_P<Node> v25; N_P<Int> v26; N_P<Int> v27; N_P<Int> v28; N_P<Bool> v29; N_P<Node> v30; N_P<Int> v31; N_P<Int> v32; N_P<Bool> v33; N_P<Node> v34; N_P<Node> v35; { { { v13 = Live(s); Foreach (v21: G.Nodes) v21.v19 = ((v21 == v13) ? 0 : 2147483647); v14 = 0; v17 = True; } While (v17) { v16 = (v14 + 1); { } v18 = False; Foreach (v21: G.Nodes) v21.v20 = (v21.v19 == v14); { } { { } Foreach (v21: G.Nodes) (v21.v20) Foreach (v22: v21.Nbrs) v22.v19 min= v16; } Foreach (v21: G.Nodes) v18 ||= (v21.v19 == v16); v17 = v18; v14 = v16; } { v14 = (v14 - 1); While ((v14 >= 0)) { { } { } Foreach (v21: G.Nodes) v21.v20 = (v21.v19 == v14); { } Foreach (v: G.Nodes) (v.v20) { v.a = 1; } v14 = (v14 - 1); } } } }
BfsOut: InBFS (v: G.Nodes From s) (1 / v.a > 0) { ; } => Node v13; Int v14; Int v15; Int v16; Bool v17; Bool v18; N_P<Int> v19; N_P<Bool> v20; inside Node v21; inside Node v22; N_P<Node> v23; N_P<Int> v24; N_P<Node> v25; N_P<Int> v26; N_P<Int> v27; N_P<Int> v28; N_P<Bool> v29; N_P<Node> v30; N_P<Int> v31; N_P<Int> v32; N_P<Bool> v33; N_P<Node> v34; N_P<Node> v35; { { { v13 = Live(s); Foreach (v21: G.Nodes) v21.v19 = ((v21 == v13) ? 0 : 2147483647); v14 = 0; v17 = True; } While (v17) { v16 = (v14 + 1); { } v18 = False; Foreach (v21: G.Nodes) v21.v20 = (v21.v19 == v14); { } { Foreach (v: G.Nodes) ((v.v20 && ((1 / v.a) > 0))) { { } } Foreach (v21: G.Nodes) (v21.v20) Foreach (v22: v21.Nbrs) v22.v19 min= v16; } Foreach (v21: G.Nodes) v18 ||= (v21.v19 == v16); v17 = v18; v14 = v16; } } }
BfsOut: x = 3; => { x = 3; }
BfsOut: Node u; InBFS (v: G.Nodes From u) { x += 1; } InBFS (v: G.Nodes From s) { y += 1; } => Node v15; Int v16; Int v17; Int v18; Bool v19; Bool v20; N_P<Int> v21; N_P<Bool> v22; inside Node v23; inside Node v24; N_P<Node> v25; N_P<Int> v26; N_P<Node> v27; N_P<Int> v28; N_P<Int> v29; N_P<Int> v30; N_P<Bool> v31; N_P<Node> v32; N_P<Int> v33; N_P<Int> v34; N_P<Bool> v35; N_P<Node> v36; N_P<Node> v37; N_P<Node> v38; N_P<Node> v39; { { Node u; } { { v15 = Live(u); Foreach (v23: G.Nodes) v23.v21 = ((v23 == v15) ? 0 : 2147483647); v16 = 0; v19 = True; } While (v19) { v18 = (v16 + 1); { } v20 = False; Foreach (v23: G.Nodes) v23.v22 = (v23.v21 == v16); { } { Foreach (v: G.Nodes) (v.v22) { x += 1; } Foreach (v23: G.Nodes) (v23.v22) Foreach (v24: v23.Nbrs) v24.v21 min= v18; } Foreach (v23: G.Nodes) v20 ||= (v23.v21 == v18); v19 = v20; v16 = v18; } } { { v15 = Live(s); Foreach (v23: G.Nodes) v23.v21 = ((v23 == v15) ? 0 : 2147483647); v16 = 0; v19 = True; } While (v19) { v18 = (v16 + 1); { } v20 = False; Foreach (v23: G.Nodes) v23.v22 = (v23.v21 == v16); { } { Foreach (v: G.Nodes) (v.v22) { y += 1; } Foreach (v23: G.Nodes) (v23.v22) Foreach (v24: v23.Nbrs) v24.v21 min= v18; } Foreach (v23: G.Nodes) v20 ||= (v23.v21 == v18); v19 = v20; v16 = v18; } } }
";

// A pass, a body and what becomes of it: the passes that cut and turn loops.
const CUT_TREES: &str = "
DeferredOut: Foreach (n: G.Nodes) { n.a <= n.b + 1 @ n; n.b <= n.a + 1 @ n; } Foreach (n: G.Nodes) { n.a <= 1 @ n; } => N_P<Int> v16; N_P<Int> v17; { { Foreach (n: G.Nodes) n.v16 = n.a; { Foreach (n: G.Nodes) n.v17 = n.b; Foreach (n: G.Nodes) { n.v16 = (n.b + 1); n.v17 = (n.a + 1); } Foreach (n: G.Nodes) n.b = n.v17; } Foreach (n: G.Nodes) n.a = n.v16; } { Foreach (n: G.Nodes) n.v16 = n.a; Foreach (n: G.Nodes) { n.v16 = 1; } Foreach (n: G.Nodes) n.a = n.v16; } }
DeferredOut: Foreach (n: G.Nodes)(n.f) { n.a <= 1 @ n; n.c = n.a; } => N_P<Int> v15; { { Foreach (n: G.Nodes) n.v15 = n.a; Foreach (n: G.Nodes) (n.f) { n.v15 = 1; n.c = n.a; } Foreach (n: G.Nodes) n.a = n.v15; } }
SaveConditions: Foreach (n: G.Nodes) { If (n.a == 0) { n.a = 1; } If (n.b == 0) { Foreach (t: n.Nbrs) { t.c += 1; } } } => inside Bool v16; { Foreach (n: G.Nodes) { If ((n.a == 0)) { n.a = 1; } { Bool v16 = (n.b == 0); If (v16) { Foreach (t: n.Nbrs) { t.c += 1; } } } } }
SaveConditions: Foreach (n: G.Nodes) { Node u = n.r; If (1 / n.a > 0) { n.a = 5; u.b += 1; } } => inside Bool v16; { Foreach (n: G.Nodes) { Node u = n.r; { Bool v16 = ((1 / n.a) > 0); If (v16) { n.a = 5; u.b += 1; } } } }
LocalsOut: Foreach (n: G.Nodes) { Int m = n.OutDegree(); Foreach (t: n.Nbrs) { t.b += m; } n.a = m; } => N_P<Int> v17; { { Foreach (n: G.Nodes) n.v17 = m; Foreach (n: G.Nodes) { n.v17 = n.OutDegree(); Foreach (t: n.Nbrs) { t.b += n.v17; } n.a = n.v17; } } }
LocalsOut: Foreach (n: G.Nodes) { Int m = 9; Node u = NIL; Foreach (t: n.Nbrs) { <m; u> min= <t.OutDegree(); t>; } n.a = m; n.r = u; } => N_P<Int> v18; N_P<Node> v19; { { Foreach (n: G.Nodes) n.v18 = m; Foreach (n: G.Nodes) n.v19 = u; Foreach (n: G.Nodes) { n.v18 = 9; n.v19 = NIL; Foreach (t: n.Nbrs) { <n.v18; n.v19> min= <t.OutDegree(); t>; } n.a = n.v18; n.r = n.v19; } } }
LocalsOut: Foreach (n: G.Nodes) { Node u = n.r; Int m = n.a; u.b += m; } => N_P<Int> v17; { { Foreach (n: G.Nodes) n.v17 = m; Foreach (n: G.Nodes) { Node u = n.r; n.v17 = n.a; u.b += n.v17; } } }
CutBodies: Foreach (n: G.Nodes) { n.a = 1; n.b = n.a; Foreach (t: n.Nbrs) { t.c += n.b; } n.a = 2; x += 1; } => { { Foreach (n: G.Nodes) { n.a = 1; n.b = n.a; } Foreach (n: G.Nodes) Foreach (t: n.Nbrs) { t.c += n.b; } Foreach (n: G.Nodes) { n.a = 2; x += 1; } } }
CutBodies: Foreach (n: G.Nodes) { Node u = n.r; u.b += 1; n.c = 1 / n.a; n.a = 3; } => { { Foreach (n: G.Nodes) { Node u = n.r; u.b += 1; } Foreach (n: G.Nodes) { n.c = (1 / n.a); n.a = 3; } } }
CutBodies: Foreach (n: G.Nodes)(n.a < 1) { If (n.a == 0) { n.a = 1 / n.b; } Else { n.c = 2; } x += n.a; } => { Foreach (n: G.Nodes) ((n.a < 1)) { If ((n.a == 0)) { n.a = (1 / n.b); } Else { n.c = 2; } x += n.a; } }
CutBodies: Foreach (n: G.Nodes)(n.a < 2) { If (n.f) { Foreach (t: n.Nbrs) { t.b += 1; } } Else { n.c = 2; } } => { { Foreach (n: G.Nodes) (((n.a < 2) && n.f)) Foreach (t: n.Nbrs) { t.b += 1; } Foreach (n: G.Nodes) (((n.a < 2) && !(n.f))) { n.c = 2; } } }
CutBodies: Foreach (n: G.Nodes) { If (n.a == 0) { Foreach (t: n.Nbrs) { t.b += 1; } n.a = 1; } Else { n.c = 2; } } => { { Foreach (n: G.Nodes) ((True && (n.a == 0))) Foreach (t: n.Nbrs) { t.b += 1; } Foreach (n: G.Nodes) ((True && (n.a == 0))) { n.a = 1; } Foreach (n: G.Nodes) ((True && !((n.a == 0)))) { n.c = 2; } } }
Flip: Foreach (n: G.Nodes)(n.f) { Foreach (t: n.InNbrs)(t.f) { n.b += t.a; } } => { { Foreach (t: G.Nodes) Foreach (n: t.Nbrs) ((n.f && t.f)) { n.b += t.a; } } }
Flip: Foreach (n: G.Nodes) { Foreach (t: n.Nbrs)(t.f) { t.b += n.a; } } => { { Foreach (n: G.Nodes) Foreach (t: n.Nbrs) (t.f) { t.b += n.a; } } }
Flip: Foreach (n: G.Nodes) { Foreach (t: n.InNbrs) { Edge e = t.ToEdge(); n.b += e.w * t.a; } } => { { Foreach (t: G.Nodes) Foreach (n: t.Nbrs) { Edge e = t.ToEdge(); n.b += (e.w * t.a); } } }
Outward: Foreach (n: G.Nodes)(n.a < 2) { Foreach (t: n.Nbrs)(n.f && t.f) { If (n.b > 0) { t.c += n.b; } } } => { { Foreach (n: G.Nodes) (((n.a < 2) && (n.f && (n.b > 0)))) Foreach (t: n.Nbrs) (t.f) t.c += n.b; } }
Outward: Foreach (n: G.Nodes) { Foreach (t: n.Nbrs) { If (n.b > 0) { t.a += 1; } t.c += n.b; } } => { { Foreach (n: G.Nodes) Foreach (t: n.Nbrs) { If ((n.b > 0)) { t.a += 1; } t.c += n.b; } } }
Outward: Foreach (n: G.Nodes) { Foreach (t: n.Nbrs)(1 / t.a > 0 && n.f) { t.c += n.b; } } => { { Foreach (n: G.Nodes) Foreach (t: n.Nbrs) ((((1 / t.a) > 0) && n.f)) t.c += n.b; } }
Outward: Foreach (n: G.Nodes) { Foreach (t: n.InNbrs)(t.f) { n.b += t.a; } } => { { Foreach (t: G.Nodes) (t.f) Foreach (n: t.Nbrs) n.b += t.a; } }
";

// Adds what becomes of a body to a report, unless it is what is wanted.
fn report_on(rt: &impl Abort, alloc: Global, row: &str, report: &mut String) -> Result<(), Fail> {
    let (name, rest) = sides(row, ": ")?;
    let (body, wanted) = sides(rest, " => ")?;
    let (frame, passes) = road_to(pass_named(alloc, name)?);
    let source = source_after(rt, alloc, frame, body, passes)?;
    if source.as_str() != wanted {
        let line = format!(in alloc; "\n{name} {body}\n    {source}\n    {wanted}")?;
        report.push_str(line.as_str())?;
    }
    Ok(())
}

// Whether each body of so many rows becomes what is wanted.
fn all_become(rt: &impl Abort, alloc: Global, rows: &str, count: usize) -> Result<(), Fail> {
    let mut report = String::new(alloc);
    let mut read = 0usize;
    for row in rows.lines() {
        if is_line(row) {
            report_on(rt, alloc, row, &mut report)?;
            read = read.saturating_add(1);
        }
    }
    assert!(rt; report.is_empty(), "{report}");
    all_read(rt, read, count);
    Ok(())
}

#[test]
fn the_first_passes_write_these(rt: HostRuntime) -> Result<(), Fail> {
    all_become(&rt, rt.alloc(), STEP_TREES, 20)
}

#[test]
fn the_passes_of_phases_write_these(rt: HostRuntime) -> Result<(), Fail> {
    all_become(&rt, rt.alloc(), PHASE_TREES, 23)
}

#[test]
fn plain_loops_are_these(rt: HostRuntime) -> Result<(), Fail> {
    all_become(&rt, rt.alloc(), LOOP_TREES, 23)
}

#[test]
fn searches_become_these(rt: HostRuntime) -> Result<(), Fail> {
    all_become(&rt, rt.alloc(), SEARCH_TREES, 11)
}

#[test]
fn loops_are_cut_and_turned_so(rt: HostRuntime) -> Result<(), Fail> {
    all_become(&rt, rt.alloc(), CUT_TREES, 19)
}
