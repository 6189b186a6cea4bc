//! The slots of a deck's records (document 01, "Deck"): for the code, each slot's place and rule. specs/Slots.antt is the table that both
//! are held to.
#![tactic(auto)]

ghost use Rattle.std.specs.Prelude.{◌≡◌};
ghost use Rattle.slots.specs.Slots.{rule_at, line_rules, year_of};

use sizes::FIELDS;

// The sort of a deck: an ordinary one, or a composite receptor's (document 02, P2).
#[derive(Clone, Copy, PartialEq, Eq)]
pub enum Sort {
    Ordinary,
    Composite,
}

// Whose record a slot stands in.
#[derive(Clone, Copy, PartialEq, Eq)]
pub enum Owner {
    Site,
    Chemical,
    Receptor,
}

// The guidance that a sheet follows, named by its year (document 02, P6): HHRAP of 2005, or for the air RAGS Part F of 2009.
#[derive(Clone, Copy, PartialEq, Eq)]
pub enum Guidance {
    Of2005 = 2005,
    Of2009 = 2009,
}

impl Guidance {
    // Its year.
    #[tactic(auto, unfolding(crate::specs::Slots::year_of))]
    pub fn year(self) -> u32
        ensures { result ≡ year_of self }
    {
        self as u32
    }
}

// A slot's rule: used, or a later slot; whether blank, - and 0 are allowed; the largest value; whether it is a guidance's year alone.
#[derive(Clone, Copy)]
pub struct Rule {
    pub used: bool,
    pub blank: bool,
    pub dash: bool,
    pub zero: bool,
    pub most: u32,
    pub year: bool,
}

// The places of a site's slots. Numbers and no enum: they index a record's slots, and the table of specs/ counts by them.
pub const ZS: usize = 0;

pub const BD: usize = 1;

pub const TD: usize = 2;

pub const THETA: usize = 3;

pub const XE: usize = 4;

pub const SD: usize = 5;

pub const ER: usize = 6;

pub const RO: usize = 7;

pub const R: usize = 8;

pub const VG: usize = 9;

pub const FR_SNOW: usize = 10;

pub const YEAR: usize = 11;

// A chemical's.
pub const Q: usize = 0;

pub const HG_A: usize = 1;

pub const HG_D: usize = 2;

pub const FV: usize = 3;

pub const CYV: usize = 4;

pub const CYP: usize = 5;

pub const DYDV: usize = 6;

pub const DYWV: usize = 7;

pub const DYDP: usize = 8;

pub const DYWP: usize = 9;

pub const KDS: usize = 10;

pub const KSG: usize = 11;

pub const KSV: usize = 12;

pub const BR: usize = 13;

pub const RCF: usize = 14;

pub const AF_INH: usize = 15;

pub const AF_ORAL: usize = 16;

pub const AF_DERM: usize = 17;

pub const RFD_O: usize = 18;

pub const RFD_I: usize = 19;

pub const CSF_O: usize = 20;

pub const CSF_I: usize = 21;

// A receptor's.
pub const BW: usize = 0;

pub const ED: usize = 1;

pub const ATC: usize = 2;

pub const IR_INH: usize = 3;

pub const ET_INH: usize = 4;

pub const EF_INH: usize = 5;

pub const IR_SOIL: usize = 6;

pub const ET_SOIL: usize = 7;

pub const EF_S: usize = 8;

pub const EF_W: usize = 9;

pub const SA_B: usize = 10;

pub const SAF_B: usize = 11;

pub const SA_H: usize = 12;

pub const SAF_H: usize = 13;

pub const ET_DERM: usize = 14;

pub const IR_AG: usize = 15;

pub const F_AG: usize = 16;

pub const IR_BG: usize = 17;

pub const F_BG: usize = 18;

pub const WP: usize = 19;

pub const EF_P: usize = 20;

pub const T2: usize = 21;

pub const YEARS: usize = 22;

const AMOUNT: Rule = Rule {
    used: true,
    blank: false,
    dash: false,
    zero: true,
    most: 1000000000,
    year: false,
};

const POSITIVE: Rule = Rule {
    zero: false,
    ..AMOUNT
};

const SHARE: Rule = Rule { most: 1, ..AMOUNT };

const DAYS: Rule = Rule {
    most: 366,
    ..AMOUNT
};

const REFERENCE: Rule = Rule {
    dash: true,
    ..POSITIVE
};

const SLOPE: Rule = Rule {
    dash: true,
    ..AMOUNT
};

const GUIDANCE_YEAR: Rule = Rule {
    blank: true,
    year: true,
    ..POSITIVE
};

// A later slot.
pub const UNUSED: Rule = Rule {
    used: false,
    blank: true,
    dash: false,
    zero: false,
    most: 0,
    year: false,
};

// The rules of the six fields of a record's line, counted from 0.
#[tactic(auto, unfolding(crate::specs::Slots::line_rules, crate::specs::Slots::rule_at, crate::specs::Slots::rule_in, crate::specs::Slots::table))]
fn site_rules(line: usize) -> [Rule; FIELDS]
    ensures { (sort : Sort) → result ≡ line_rules sort Owner.Site line }
{
    match line {
        0 => [POSITIVE, POSITIVE, POSITIVE, POSITIVE, AMOUNT, AMOUNT],
        1 => [AMOUNT, AMOUNT, AMOUNT, SHARE, SHARE, GUIDANCE_YEAR],
        _ => [UNUSED; FIELDS],
    }
}

#[tactic(auto, unfolding(crate::specs::Slots::line_rules, crate::specs::Slots::rule_at, crate::specs::Slots::rule_in, crate::specs::Slots::table))]
fn chemical_rules(line: usize) -> [Rule; FIELDS]
    ensures { (sort : Sort) → result ≡ line_rules sort Owner.Chemical line }
{
    match line {
        0 => [AMOUNT, SHARE, SHARE, SHARE, AMOUNT, AMOUNT],
        1 => [AMOUNT, AMOUNT, AMOUNT, AMOUNT, POSITIVE, AMOUNT],
        2 => [AMOUNT, AMOUNT, AMOUNT, SHARE, SHARE, SHARE],
        3 => [REFERENCE, REFERENCE, SLOPE, SLOPE, UNUSED, UNUSED],
        _ => [UNUSED; FIELDS],
    }
}

// The only line whose rules differ with the sort.
#[tactic(auto, unfolding(crate::specs::Slots::line_rules, crate::specs::Slots::rule_at, crate::specs::Slots::rule_in, crate::specs::Slots::table))]
fn last_rules(sort: Sort) -> [Rule; FIELDS]
    ensures { result ≡ line_rules sort Owner.Receptor 3 }
{
    match sort {
        Sort::Ordinary => [SHARE, SHARE, DAYS, POSITIVE, UNUSED, UNUSED],
        Sort::Composite => [SHARE, SHARE, DAYS, UNUSED, POSITIVE, UNUSED],
    }
}

#[tactic(auto, unfolding(crate::specs::Slots::line_rules, crate::specs::Slots::rule_at, crate::specs::Slots::rule_in, crate::specs::Slots::table))]
fn receptor_rules(sort: Sort, line: usize) -> [Rule; FIELDS]
    ensures { result ≡ line_rules sort Owner.Receptor line }
{
    match line {
        0 => [POSITIVE, POSITIVE, POSITIVE, AMOUNT, SHARE, DAYS],
        1 => [AMOUNT, SHARE, DAYS, DAYS, AMOUNT, AMOUNT],
        2 => [AMOUNT, AMOUNT, SHARE, AMOUNT, SHARE, AMOUNT],
        3 => last_rules(sort),
        _ => [UNUSED; FIELDS],
    }
}

// The rules of the six fields of a record's line, counted from 0; past the record's lines all are later slots.
pub fn rules(sort: Sort, owner: Owner, line: usize) -> [Rule; FIELDS]
    ensures { result ≡ line_rules sort owner line }
{
    match owner {
        Owner::Site => site_rules(line),
        Owner::Chemical => chemical_rules(line),
        Owner::Receptor => receptor_rules(sort, line),
    }
}

// The rule of a record's place, from 0.
#[tactic(auto, using(crate::proofs::SlotLaws::rule_read))]
pub fn rule_at(sort: Sort, owner: Owner, place: usize) -> Rule
    ensures { result ≡ rule_at sort owner place }
{
    let in_line = rules(sort, owner, place / FIELDS);
    in_line[place % FIELDS]
}
