// The exported calls as runs: a run of calls on lent bytes is a run of layer 4. There is no code here.
#![tactic(auto)]
