// What a reader quotes of demands 1 and 2: refusals, senses, bytes carried, residues, C numbers, determinacy; no code.
#![tactic(auto)]
