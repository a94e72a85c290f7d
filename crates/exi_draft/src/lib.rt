//! Grammars that are not yet normal (EXI 1.0, section 8.5.4.1), as those who make and those who normalize them speak of them.
#![tactic(auto)]
