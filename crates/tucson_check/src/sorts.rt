//! Names that are declared: centres, roles and agents.
use std::alloc::Global;
use tc_config::Config;
use tc_lists::NoMemory;
use tc_term::Name;

/// What a name is that is declared.
#[derive(Clone, Copy, Debug, PartialEq, Eq)]
pub enum Sort {
    Centre,
    Role,
    Agent,
}

impl Sort {
    /// The word of the clause that declares it.
    pub fn word(&self) -> &'static [u8] {
        match self {
            Sort::Centre => b"centre",
            Sort::Role => b"role",
            Sort::Agent => b"agent",
        }
    }

    /// What it is, in words.
    pub fn phrase(&self) -> &'static [u8] {
        match self {
            Sort::Centre => b"a centre",
            Sort::Role => b"a role",
            Sort::Agent => b"an agent",
        }
    }
}

/// The names of this sort that are declared.
pub fn declared<'a>(
    alloc: Global,
    config: &'a Config,
    sort: Sort,
) -> Result<Vec<&'a [u8]>, NoMemory> {
    let mut names = Vec::new(alloc);
    match sort {
        Sort::Centre => {
            for centre in config.centres() {
                names.push(centre.name.bytes())?;
            }
        }
        Sort::Role => push_names(config.role_names(), &mut names)?,
        Sort::Agent => {
            for agent in config.agents() {
                names.push(agent.name.bytes())?;
            }
        }
    }
    Ok(names)
}

// Appends the bytes of names.
fn push_names<'a>(names: &'a [Name], into: &mut Vec<&'a [u8]>) -> Result<(), NoMemory> {
    for name in names {
        into.push(name.bytes())?;
    }
    Ok(())
}
