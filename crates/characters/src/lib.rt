// Characters in bytes by RFC 3629: the definitions and their laws. There is no code here.
#![tactic(auto)]
