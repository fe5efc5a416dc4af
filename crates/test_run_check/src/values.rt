//! Terms by a walk of their own: what a template makes of a tuple, and terms with values in them.
use std::alloc::Global;
use tc_lists::NoMemory;
use tc_term::{Args, Name, Term};

/// What variables stand for.
#[derive(Drop)]
pub struct Values {
    pairs: Vec<Pair>,
}

// A variable, with what it stands for.
#[derive(Drop)]
struct Pair {
    variable: u32,
    value: Term,
}

impl Values {
    /// No variable stands for anything.
    pub fn none(alloc: Global) -> Values {
        Values {
            pairs: Vec::new(alloc),
        }
    }

    // What a variable stands for.
    fn get(&self, variable: u32) -> Option<&Term> {
        for pair in &self.pairs {
            if pair.variable == variable {
                return Some(&pair.value);
            }
        }
        None
    }

    /// Lets the variable stand for this, unless it stands for something else.
    pub fn agree(&mut self, alloc: Global, variable: u32, value: &Term) -> Result<bool, NoMemory> {
        if let Some(known) = self.get(variable) {
            return Ok(*known == *value);
        }
        self.put(alloc, variable, value)?;
        Ok(true)
    }

    /// Notes what a variable stands for that has stood for nothing.
    pub fn put(&mut self, alloc: Global, variable: u32, value: &Term) -> Result<(), NoMemory> {
        let value = value.copy(alloc)?;
        self.pairs.push(Pair { variable, value })?;
        Ok(())
    }

    /// Lets a variable stand for this, also where it stands in what others stand for.
    pub fn bind(&mut self, alloc: Global, variable: u32, value: &Term) -> Result<(), NoMemory> {
        let mut one = Values::none(alloc);
        one.put(alloc, variable, value)?;
        for pair in self.pairs.iter_mut() {
            let value = filled(alloc, &pair.value, &one)?;
            pair.value = value;
        }
        self.put(alloc, variable, value)
    }
}

/// Whether the template is the tuple once its variables have values, which are noted.
pub fn meets(
    alloc: Global,
    template: &Term,
    tuple: &Term,
    values: &mut Values,
) -> Result<bool, NoMemory> {
    match (template, tuple) {
        (Term::Var(variable), _) => values.agree(alloc, *variable, tuple),
        (Term::Atom(left), Term::Atom(right)) => Ok(left == right),
        (Term::Int(left), Term::Int(right)) => Ok(left == right),
        (Term::Comp(left, ours), Term::Comp(right, theirs)) => {
            if left != right || ours.items().len() != theirs.items().len() {
                return Ok(false);
            }
            for (our, their) in ours.items().iter().zip(theirs.items()) {
                if !meets(alloc, our, their, values)? {
                    return Ok(false);
                }
            }
            Ok(true)
        }
        _ => Ok(false),
    }
}

/// The term with the values of its variables in it.
pub fn filled(alloc: Global, term: &Term, values: &Values) -> Result<Term, NoMemory> {
    match term {
        Term::Var(variable) => match values.get(*variable) {
            Some(value) => value.copy(alloc),
            None => Ok(Term::Var(*variable)),
        },
        Term::Atom(name) => Ok(Term::Atom(name.copy(alloc)?)),
        Term::Int(number) => Ok(Term::Int(*number)),
        Term::Comp(name, args) => {
            let mut terms = Vec::new(alloc);
            for arg in args.items() {
                let term = filled(alloc, arg, values)?;
                terms.push(term)?;
            }
            compound(alloc, name.copy(alloc)?, terms)
        }
    }
}

/// The compound of these arguments: where there is none, the atom.
pub fn compound(alloc: Global, name: Name, terms: Vec<Term>) -> Result<Term, NoMemory> {
    if terms.is_empty() {
        return Ok(Term::Atom(name));
    }
    Ok(Term::Comp(name, Args::new(alloc, terms)?))
}

/// The place of the oldest tuple that the template matches.
pub fn oldest(alloc: Global, tuples: &[Term], template: &Term) -> Result<Option<usize>, NoMemory> {
    for (place, tuple) in tuples.iter().enumerate() {
        let mut values = Values::none(alloc);
        if meets(alloc, template, tuple, &mut values)? {
            return Ok(Some(place));
        }
    }
    Ok(None)
}
