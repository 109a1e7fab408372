// No code: what the listing of a context is (document 01, "The listing"), in specs/, with its examples, its laws and its most bytes.
#![tactic(auto)]
