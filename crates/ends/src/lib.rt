// Both ends of one connection, as theorems: the handshake and the data of each are taken by the other. There is no code here.
#![tactic(auto)]
