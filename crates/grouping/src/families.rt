// The families of roots: the lists of the records that are named are counted, and their terms are placed under the roots' labels.
ghost use Rattle.std.specs.Prelude.{◌≡◌, [], ◌≤◌, length};
ghost use Rattle.semantics.specs.Check.{read_sheet};
ghost use Rattle.semantics.specs.Group.{items};
ghost use Rattle.records.specs.Named.{parts_of};
ghost use Rattle.group.specs.declared.place.Form.TheVariants.{Interaction};
ghost use Rattle.group.specs.Grouped.{tally_all, list_of, vars_named};
ghost use Rattle.group.specs.Groups.{tallies, Counted, Placed};
ghost use Rattle.grouping.specs.Families.{ToTally, label_as, form_as, named_roots, part_roots, ToPlaceRoots, Grouping, roots_of, form_of, nodes_of};

use crate::Family;
use group::Groups;
use group::place::Label;
use records::CheckedSheet;
use records::interactions::Part;

// How records that are named are labelled, each by its place among the names: as a constraint, or as a field of an interaction.
#[derive(Clone, Copy, Debug, PartialEq, Eq)]
pub enum Numbering {
    ByIndex,
    ByField(u32),
}

impl Numbering {
    // The label of name j.
    fn label(self, j: u32) -> Label
        ensures { result ≡ label_as self j }
    {
        match self {
            Numbering::ByIndex => Label::Constraint { index: j },
            Numbering::ByField(i) => Label::Interaction { index: i, field: j },
        }
    }
}

// Counts the lists of the records that are named; None: the headers are too short.
fn tally_references(names: &[u32], groups: &mut Groups) -> Option<()>
    requires { ToTally groups.old names.now }
    ensures { Counted groups.old groups.new
        (tally_all (vars_named groups.old.pool.now names.now) (tallies groups.old)) result }
{
    for r in names {
        groups.tally_root(*r as usize)?;
    }
    Some(())
}

// Counts the lists of a part of every interaction.
fn tally_parts(sheet: CheckedSheet, part: Part, groups: &mut Groups) -> Option<()>
    requires { ToTally groups.old (parts_of part (read_sheet sheet.words.now).interactions) }
    ensures { Counted groups.old groups.new
        (tally_all (vars_named groups.old.pool.now (parts_of part (read_sheet sheet.entry.words.now).interactions)) (tallies groups.old)) result }
{
    for x in sheet.interactions() {
        tally_references(x.part(part), groups)?;
    }
    Some(())
}

// Places the terms of the records that are named.
fn place_references(names: &[u32], numbering: Numbering, groups: &mut Groups, terms: &mut [u32])
    requires { (length names.now ≤ 4294967295)
        × ToPlaceRoots (form_as numbering) groups.old terms.old (named_roots numbering 0 names.now) }
    ensures { Placed (form_as numbering) groups.old terms.old groups.new terms.new
        (items (list_of groups.old.pool.now) (named_roots numbering 0 names.now)) }
{
    for (j, r) in names.iter().enumerate() {
        let label = numbering.label(j as u32);
        groups.place_root(*r as usize, label, terms);
    }
}

// Places the terms of a part of every interaction.
fn place_parts(sheet: CheckedSheet, part: Part, groups: &mut Groups, terms: &mut [u32])
    requires { ToPlaceRoots Interaction groups.old terms.old (part_roots part 0 (read_sheet sheet.words.now).interactions) }
    ensures { Placed Interaction groups.old terms.old groups.new terms.new
        (items (list_of groups.old.pool.now) (part_roots part 0 (read_sheet sheet.entry.words.now).interactions)) }
{
    for (i, x) in sheet.interactions().enumerate() {
        place_references(x.part(part), Numbering::ByField(i as u32), groups, terms);
    }
}

// Counts the lists of a family's records, to begin with no groups.
pub fn tally_family(sheet: CheckedSheet, family: Family, groups: &mut Groups) -> Option<()>
    requires { Grouping sheet.words.now groups.old.pool.now (roots_of family (read_sheet sheet.words.now)) × (tallies groups.old ≡ []) }
    ensures { Counted groups.old groups.new
        (tally_all (vars_named groups.old.pool.now (nodes_of (roots_of family (read_sheet sheet.entry.words.now)))) []) result }
{
    match family {
        Family::Constraints => tally_references(sheet.constraints(), groups),
        Family::Counts => tally_parts(sheet, Part::Count, groups),
        Family::Fields => tally_parts(sheet, Part::Fields, groups),
    }
}

// Places the terms of a family's records.
pub fn place_family(sheet: CheckedSheet, family: Family, groups: &mut Groups, terms: &mut [u32])
    requires { ToPlaceRoots (form_of family) groups.old terms.old (roots_of family (read_sheet sheet.words.now)) }
    ensures { Placed (form_of family) groups.old terms.old groups.new terms.new
        (items (list_of groups.old.pool.now) (roots_of family (read_sheet sheet.entry.words.now))) }
{
    match family {
        Family::Constraints => {
            place_references(sheet.constraints(), Numbering::ByIndex, groups, terms)
        }
        Family::Counts => place_parts(sheet, Part::Count, groups, terms),
        Family::Fields => place_parts(sheet, Part::Fields, groups, terms),
    }
}
