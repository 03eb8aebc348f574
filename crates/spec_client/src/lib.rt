//! A client, as definitions: its session, its calls and their answers in order, and what it sends.
//! It follows Ongaro's dissertation of 2014, sections 6.3 and 6.4, in outline.
#![tactic(auto)]
