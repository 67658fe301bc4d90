// The index of a table: its lines' own ends. No code: see specs/Index.antt.

#![tactic(auto)]
