//! The numbers that document 01 fixes, each once, and what follows from them. specs/Sizes.antt has the same for the definitions.
#![tactic(auto)]

// Fields of a line.
pub const FIELDS: usize = 6;

// Lines of the site's record, and of a chemical's or a receptor's.
pub const SITE_LINES: usize = 2;

pub const RECORD_LINES: usize = 4;

// Slots of a record, those that no record of its kind has included.
pub const SLOTS: usize = FIELDS * RECORD_LINES;

pub const MAX_CHEMICALS: usize = 16;

// Receptors of an ordinary deck.
pub const MAX_RECEPTORS: usize = 4;

// Receptors of a composite's deck: the life stages of one person.
pub const MAX_STAGES: usize = 8;

// Pathways of a chemical.
pub const PATHWAYS: usize = 6;

// A receptor's lines but its total line, at most: so many numbers a total adds.
pub const MOST_LINES: usize = MAX_CHEMICALS * PATHWAYS;
