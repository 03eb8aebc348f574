//! A cluster of Raft nodes in transitions, smaller than its steps, over every packet ever sent: what each one needs, and
//! what it leaves. Each step of the cluster, made or halted, is a list of them.
#![tactic(auto)]
