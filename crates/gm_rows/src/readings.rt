//! How far standard input is read: what it has left after a call.

/// The words, the text, and what is left of it.
pub const READINGS: &str = "
~ check -
#Procedure=>
~ check -
Procedure f(G: Graph) { }
%%
0 1
=>
~ run - -
#ab
%%
0 1
1 2
=>
 1
1 2
~ run - -
#ab
%%
0 1
=>
 1
~ run - -
#ab
%%=>
~ run - -
Procedure f(G: Graph) { }
%%
0 x
1 2
=>
~ run - none
#ab
%%
0 1
=>
~ exec - -
gm-image 9
%%
0 1
1 2
=>
0 1
1 2
~ run none -
#ab
%%
0 1
=>
#ab
%%
0 1
";
