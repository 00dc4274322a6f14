// The demands on the gateway, stated and proved over the definitions of the four layers. There is no code here.
#![tactic(auto)]
