//! What the resources do, as lines of a script beside what they print.
#![tactic(auto)]

#[cfg(test)]
mod acts;
#[cfg(test)]
mod books;
#[cfg(test)]
mod collections;
#[cfg(test)]
mod groups;
#[cfg(test)]
mod locks;
#[cfg(test)]
mod maps;
#[cfg(test)]
mod values;
