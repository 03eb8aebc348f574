//! A server node, as definitions: a Raft node with its session state, its gate of queries, and the clients connected to it.
//! It follows Ongaro's dissertation of 2014, chapter 6.
#![tactic(auto)]
