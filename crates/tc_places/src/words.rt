//! The words of configurations.

// What clauses begin with.
const CLAUSE_WORDS: [&[u8]; 7] = [
    b"centre", b"tuple", b"spec", b"role", b"grant", b"agent", b"script",
];

// What an agent may do at a centre.
const PRIMITIVES: [&[u8]; 9] = [
    b"out",
    b"in",
    b"rd",
    b"inp",
    b"rdp",
    b"no",
    b"nop",
    b"set_spec",
    b"get_spec",
];

// What a reaction may react to.
const EVENTS: [&[u8]; 10] = [
    b"out", b"in", b"rd", b"inp", b"rdp", b"no", b"nop", b"out_r", b"in_r", b"rd_r",
];

// The goals of a body without a guard.
const GOALS: [&[u8]; 13] = [
    b"out_r",
    b"in_r",
    b"rd_r",
    b"no_r",
    b"pre",
    b"post",
    b"success",
    b"failure",
    b"true",
    b"current_agent",
    b"current_tc",
    b"current_op",
    b"current_tuple",
];

// The goals of a body behind a guard.
const GUARDED_GOALS: [&[u8]; 13] = [
    b"out",
    b"in",
    b"rd",
    b"no",
    b"pre",
    b"post",
    b"success",
    b"failure",
    b"true",
    b"current_agent",
    b"current_tc",
    b"current_op",
    b"current_tuple",
];

/// The tests of a guard.
pub const TESTS: [&[u8]; 5] = [b"request", b"response", b"success", b"failure", b"true"];

/// What clauses begin with.
pub fn clause_words() -> &'static [&'static [u8]] {
    &CLAUSE_WORDS
}

/// What an agent may do at a centre.
pub fn primitive_words() -> &'static [&'static [u8]] {
    &PRIMITIVES
}

/// What a reaction may react to.
pub fn event_words() -> &'static [&'static [u8]] {
    &EVENTS
}

/// The tests of a guard.
pub fn test_words() -> &'static [&'static [u8]] {
    &TESTS
}

/// The goals of a body, behind a guard or without one.
pub fn goal_words(guarded: bool) -> &'static [&'static [u8]] {
    if guarded { &GUARDED_GOALS } else { &GOALS }
}

/// Whether a clause begins with this word.
pub fn is_clause_word(word: &[u8]) -> bool {
    form_of(word).is_some()
}

/// Whether the first argument behind this word has no brackets round it.
pub fn begins_with_name(word: &[u8]) -> bool {
    is_clause_word(word) || word == b"reaction".as_slice()
}

/// How the clause is written that begins with this word.
pub fn form_of(word: &[u8]) -> Option<&'static [u8]> {
    match word {
        b"centre" => Some(b"centre(NAME). or centre(NAME,BUDGET)."),
        b"tuple" => Some(b"tuple(CENTRE,TUPLE)."),
        b"spec" => Some(b"spec(CENTRE,reaction(EVENT,BODY))."),
        b"role" => Some(b"role(NAME)."),
        b"grant" => Some(b"grant(ROLE,CENTRE,PRIMITIVE)."),
        b"agent" => Some(b"agent(NAME,ROLE)."),
        b"script" => Some(b"script(AGENT,[CENTRE ? OPERATION, ..])."),
        _ => None,
    }
}

/// How many arguments there are at most behind a name, where it is one of ours.
pub fn most_arguments(name: &[u8]) -> usize {
    match name {
        b"role" => 1,
        b"centre" | b"tuple" | b"spec" | b"agent" | b"script" => 2,
        b"grant" | b"reaction" => 3,
        b"out" | b"in" | b"rd" | b"inp" | b"rdp" | b"no" | b"nop" | b"set_spec" => 1,
        b"out_r" | b"in_r" | b"rd_r" | b"no_r" => 1,
        b"current_agent" | b"current_tc" | b"current_op" | b"current_tuple" => 1,
        _ => usize::MAX,
    }
}
