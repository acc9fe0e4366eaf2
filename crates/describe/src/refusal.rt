// Refusals in words: what is wrong, where, and what was expected there.
use report::Refused;
use scan::{Fault, FileFault, FileRule, Place, Section};
use std::fmt;

// What a section is called, what its count may be, and what its rows are made of.
#[derive(Clone, Copy)]
struct SectionWords {
    name: &'static str,
    count: &'static str,
    row: &'static str,
}

// Words by match, here and below: so each case is sure to have words, and an `impl Display` of them would be longer.
fn section_words(section: Section) -> SectionWords {
    match section {
        Section::Events => SectionWords {
            name: "events",
            count: "the number of events, 1 to 64",
            row: "a kind, 0 for controllable or 1 for uncontrollable",
        },
        Section::Variables => SectionWords {
            name: "variables",
            count: "the number of variables, 0 to 12",
            row: "low, high, start, marked low and marked high, two bytes each",
        },
        Section::Automata => SectionWords {
            name: "automata",
            count: "the number of automata, 1 to 12",
            row: "role, number of locations, start location, a mark for each location, number of events in the alphabet, these events",
        },
        Section::Transitions => SectionWords {
            name: "transitions",
            count: "the number of transitions, 0 to 512 in two bytes",
            row: "automaton, from, event, to, length and bytes of the guard, number of updates, for each a variable, length and bytes of the term",
        },
    }
}

fn broken_rule(rule: FileRule) -> &'static str {
    match rule {
        FileRule::CountLimits => "a count is outside its limits",
        FileRule::ZeroOrOne => "a kind, role or mark is neither 0 nor 1",
        FileRule::VariableValues => "the values of a variable are out of order",
        FileRule::KnownNumber => "there is nothing with this number",
        FileRule::RisingOrder => "numbers that should rise do not",
        FileRule::InAlphabet => "the event is not in the automaton's alphabet",
        FileRule::Expression => "an expression is malformed",
    }
}

fn wrong_words(wrong: FileFault) -> &'static str {
    match wrong {
        FileFault::EndsTooSoon => "the file ends too soon",
        FileFault::BytesFollow => "bytes follow the last row",
        FileFault::Breaks(rule) => broken_rule(rule),
    }
}

// What a count or a row of a section is.
fn part_words(place: Place) -> &'static str {
    let words = section_words(place.section);
    if place.row == 0 {
        words.count
    } else {
        words.row
    }
}

// The limits of a count.
fn limits_words(place: Place) -> &'static str {
    match place.section {
        Section::Automata if place.row > 0 => "1 to 64 locations, 1 to 24 events in the alphabet",
        Section::Transitions if place.row > 0 => "0 to 12 updates",
        section => section_words(section).count,
    }
}

fn rule_words(rule: FileRule, place: Place) -> &'static str {
    match (rule, place.section) {
        (FileRule::CountLimits, _) => limits_words(place),
        (FileRule::ZeroOrOne, Section::Events) => "0 for controllable or 1 for uncontrollable",
        (FileRule::ZeroOrOne, _) => "a role, 0 for plant or 1 for specification, or a mark, 0 or 1",
        (FileRule::VariableValues, _) =>
            "-1000 <= low <= high <= 1000, low <= start <= high, low <= marked low <= marked high <= high",
        (FileRule::KnownNumber, Section::Transitions) =>
            "the number of an automaton, of one of its locations, of an event or of a variable, counted from 0",
        (FileRule::KnownNumber, _) => "the number of a location or of an event, counted from 0",
        (FileRule::RisingOrder, Section::Transitions) =>
            "automata that never fall from row to row, updated variables that rise within a row",
        (FileRule::RisingOrder, _) => "events of the alphabet that rise",
        (FileRule::InAlphabet, _) => "an event of the automaton's alphabet",
        (FileRule::Expression, _) =>
            "a length of 1 to 255, and codes of one guard or term, at most 16 deep, that use it up",
    }
}

fn expected_words(wrong: FileFault, place: Place) -> &'static str {
    match wrong {
        FileFault::EndsTooSoon => part_words(place),
        FileFault::BytesFollow => "the end of the file",
        FileFault::Breaks(rule) => rule_words(rule, place),
    }
}

// A place, as `row 1 of the automata, byte 26`.
#[derive(Clone, Copy)]
struct PlaceText(Place);

impl fmt::Display for PlaceText {
    fn fmt<W: fmt::Write>(&self, f: &mut fmt::Formatter<W>) -> fmt::Result {
        let Place { section, row, byte } = self.0;
        let section = section_words(section).name;
        if row == 0 {
            write!(f, "count of the {section}, byte {byte}")
        } else {
            write!(f, "row {row} of the {section}, byte {byte}")
        }
    }
}

// The byte of a file at a place, as `, found 0x41`, if there is one.
fn put_found<W: fmt::Write>(f: &mut fmt::Formatter<W>, file: &[u8], byte: usize) -> fmt::Result {
    match file.get(byte) {
        Some(b) => write!(f, ", found 0x{b:02x}"),
        None => Ok(()),
    }
}

// The refusal of a file.
#[derive(Clone, Copy)]
pub struct Refusal<'a> {
    pub file: &'a [u8],
    pub fault: Fault,
}

impl fmt::Display for Refusal<'_> {
    fn fmt<W: fmt::Write>(&self, f: &mut fmt::Formatter<W>) -> fmt::Result {
        let line = Refused(self.fault);
        let Fault::File(wrong, place) = self.fault else {
            return writeln!(f, "{line}");
        };
        write!(f, "{line}\n  {}: {}", wrong_words(wrong), PlaceText(place))?;
        put_found(f, self.file, place.byte)?;
        write!(f, "\n  expected: {}\n", expected_words(wrong, place))
    }
}
