// Document 01's cases and its example E, and more beside them, computed from the definitions; no code.
#![tactic(auto)]
