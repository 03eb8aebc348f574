//! Worked scripts: what is read of them, and which line is refused.
#![tactic(auto)]

ghost use Rattle.std.specs.Prelude.{◌≡◌, ◌++◌, ◌∷◌, [], Ok, Err, true, false, codes, replicate};
ghost use Rattle.ax_types.specs.declared.statuses.Why.TheVariants as why;
ghost use Rattle.spec_script.specs.Scripts as scripts;
ghost use Rattle.rows_script.specs.RefusedScripts as refused_scripts;

/// An input without bytes is refused at line 1, since no cluster line comes.
pub fn no_bytes()
    ensures { scripts.read_script_of false [] ≡ Err (record { line = 1; why = why.Cluster }) }
{}

/// Where only comments come, the line after the last newline is refused.
pub fn comment_alone()
    ensures with_newline { scripts.read_script_of false (codes "#a\n") ≡ Err (record { line = 2; why = why.Cluster }) }
    ensures without_newline { scripts.read_script_of false (codes "#a") ≡ Err (record { line = 1; why = why.Cluster }) }
{}

/// A comment has 512 bytes at most, as each line has.
pub fn long_comment()
    ensures refused { scripts.read_script_of false (refused_scripts.one_add_with_comment (replicate 512 120)) ≡ Err (record { line = 2; why = why.LineTooLong }) }
    ensures longest { scripts.read_script_of false (refused_scripts.one_add_with_comment (replicate 511 120)) ≡ Ok (refused_scripts.one_add 3) }
{}

/// A timeout is at least 1.
pub fn timeout_of_zero()
    ensures { scripts.read_script_of false (codes "cluster 1 clients 1 timeout 0\n") ≡ Err (record { line = 1; why = why.Cluster }) }
{}

/// A step names nodes of the cluster.
pub fn node_outside_the_cluster()
    ensures { scripts.read_script_of false (codes "cluster 3 clients 1 timeout 5\nelect 4\n") ≡ Err (record { line = 2; why = why.Grammar }) }
{}

/// A script of one addition, and what it is read as.
pub fn one_addition()
    ensures { scripts.read_script_of false refused_scripts.one_add_script ≡ Ok (refused_scripts.one_add 2) }
{}
