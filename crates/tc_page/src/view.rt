//! All that is known of a text before it is written.
use crate::links::partners;
use crate::order::{Shown, shown_order};
use crate::steps::{Deed, Step, steps_of};
use std::alloc::Global;
use tc_histtext::{Text, Version};
use tc_lists::NoMemory;
use tc_names::Names;
use tc_term::Name;

/// The steps of a text, with their partners, and the order in which they are shown.
#[derive(Drop)]
pub struct View<'t> {
    pub alloc: Global,
    pub version: Version,
    pub blocked: bool,
    pub steps: Vec<Step<'t>>,
    pub partners: Vec<Option<usize>>,
    pub order: Vec<Shown>,
    centres: Names,
}

impl<'t> View<'t> {
    /// What is known of a text of these centres and so many agents.
    pub fn new(
        alloc: Global,
        centres: &[Name],
        agents: usize,
        text: &'t Text,
    ) -> Result<View<'t>, NoMemory> {
        let steps = steps_of(alloc, text)?;
        let partners = partners(alloc, &steps, agents)?;
        let order = shown_order(alloc, &steps, &partners)?;
        Ok(View {
            alloc,
            version: text.version,
            blocked: text.blocked,
            steps,
            partners,
            order,
            centres: names_of(alloc, centres)?,
        })
    }

    /// The place of the centre that a step was at, or would have been.
    pub fn centre(&self, step: &Step<'_>) -> Option<usize> {
        match step.deed {
            Deed::Refused { centre, .. } => self.centres.place(centre),
            Deed::Called { .. } | Deed::Gave { .. } | Deed::Looked { .. } => step.centre,
        }
    }

    /// The place of a step's partner.
    pub fn partner(&self, place: usize) -> Option<usize> {
        self.partners.get(place).copied().flatten()
    }

    /// How many entries of its history a call waited for: up to its answer, or up to the end.
    /// `None` of what is no call that waited.
    pub fn wait(&self, place: usize, step: &Step<'_>) -> Option<Wait> {
        if !step.is_pending() {
            return None;
        }
        match self.partner(place) {
            Some(answer) => {
                let entries = answer.saturating_sub(place).saturating_sub(1);
                (entries > 0).then_some(Wait::Over(entries))
            }
            None => Some(Wait::Still),
        }
    }
}

/// A wait that has ended behind so many entries, or has not.
#[derive(Clone, Copy)]
pub enum Wait {
    Over(usize),
    Still,
}

// Names with their places, each once.
fn names_of(alloc: Global, names: &[Name]) -> Result<Names, NoMemory> {
    let mut known = Names::new(alloc);
    for name in names {
        if known.place(name).is_none() {
            known.add(name.copy(alloc)?)?;
        }
    }
    Ok(known)
}
