//! The run of a script, in plain data: what each step made in the gateway and what there is to tell of it, and the text of that in
//! both versions of the output. There is no code in it: a player makes such runs, and whoever checks an output reads them.
#![tactic(auto)]
