// The sections of the input.
ghost use Rattle.std.specs.Prelude.{Some};
ghost use Rattle.case_io.specs.Lines.{name_text};

use std::fmt;

#[derive(Clone, Copy)]
pub enum Section {
    Check,
    Exits,
    Plan,
    Measure,
    Write,
    Fronts,
    Lengths,
    Page,
    Pages,
    Reason,
    Reasons,
    Decimal,
}

// In the order in which they stand in the input.
pub const SECTIONS: [Section; 12] = [
    Section::Check,
    Section::Exits,
    Section::Plan,
    Section::Measure,
    Section::Write,
    Section::Fronts,
    Section::Lengths,
    Section::Page,
    Section::Pages,
    Section::Reason,
    Section::Reasons,
    Section::Decimal,
];

// The name of the section.
impl fmt::Display for Section {
    ghost output = { λ section. Some (name_text section) };

    fn fmt<W: fmt::Write>(&self, f: &mut fmt::Formatter<W>) -> fmt::Result {
        f.write_str(match self {
            Section::Check => "check",
            Section::Exits => "exits",
            Section::Plan => "plan",
            Section::Measure => "measure",
            Section::Write => "write",
            Section::Fronts => "fronts",
            Section::Lengths => "lengths",
            Section::Page => "page",
            Section::Pages => "pages",
            Section::Reason => "reason",
            Section::Reasons => "reasons",
            Section::Decimal => "decimal",
        })
    }
}
