//! The session state of a server, as definitions: who is live, what is cached for whom, and what an entry does.
//! It follows Ongaro's dissertation of 2014, section 6.3: a session is named by its register entry, and its time is log time.
#![tactic(auto)]
