// The families of a checked sheet, grouped: headers, variables and terms, or the first slice that is too short.
#![tactic(auto)]

ghost use Rattle.std.specs.Prelude.{◌≡◌, ◌≤◌, length};
ghost use Rattle.semantics.specs.Check.{read_sheet};
ghost use Rattle.group.specs.Grouped.{column, sum, term_of, term_width};
ghost use Rattle.group.specs.Groups.{tallies, Same};
ghost use Rattle.grouping.specs.Families.{roots_of, form_of, short_number, FewTerms, StartsPlacing, Measured, Grouping, Laid, groups_of};

mod families;

use group::place::Form;
use group::{Groups, totals};
use records::CheckedSheet;

// Which records of a sheet are grouped: its constraints, the counts of its interactions, or their fields.
#[derive(Clone, Copy, Debug, PartialEq, Eq)]
pub enum Family {
    Constraints,
    Counts,
    Fields,
}

impl Family {
    // The form of its terms.
    fn form(self) -> Form
        ensures { result ≡ form_of self }
    {
        match self {
            Family::Constraints => Form::Constraint,
            Family::Counts | Family::Fields => Form::Interaction,
        }
    }

    // How many words a term has.
    pub fn width(self) -> usize
        ensures { result ≡ term_width (form_of self) }
    {
        self.form().width()
    }
}

// How many words each list takes.
#[derive(Clone, Copy, Debug, Default, PartialEq, Eq)]
pub struct Lengths {
    pub headers: usize,
    pub variables: usize,
    pub terms: usize,
}

// The first slice that is too short.
#[derive(Clone, Copy, Debug, PartialEq, Eq)]
pub enum Short {
    Headers = 1,
    Variables,
    Terms,
}

impl Short {
    pub fn number(self) -> usize
        ensures { result ≡ short_number self }
    {
        self as usize
    }
}

// Whether variables and terms have room; the headers of the groups stand in their slice.
fn room_for(groups: &Groups, width: usize, variables: usize, terms: usize) -> Result<Lengths, Short>
    requires { (groups.now.n ≤ 16777216) × (sum (column 3 groups.now.n groups.now.headers.now) ≤ 16777216) × (width ≤ 3) }
    ensures { Measured groups.now.n width
        (sum (column 2 groups.now.n groups.now.headers.now)) (sum (column 3 groups.now.n groups.now.headers.now)) variables terms result }
{
    let v = groups.column_total(totals::VARIABLES);
    if variables < v {
        return Err(Short::Variables);
    }
    let t = groups.column_total(totals::TERMS);
    if terms < width * t {
        return Err(Short::Terms);
    }
    Ok(Lengths {
        headers: 4 * groups.count(),
        variables: v,
        terms: width * t,
    })
}

// Makes headers and terms ready for terms.
fn start_groups(groups: &mut Groups, terms: &mut [u32])
    requires { FewTerms groups.old }
    ensures { Same groups.old groups.new × (groups.new.n ≡ groups.old.n)
        × StartsPlacing (tallies groups.old) groups.new terms.new (length terms.old) }
{
    terms.fill(0);
    groups.start_terms();
}

// The lists of a family of a checked sheet.
pub fn group_family(
    sheet: CheckedSheet,
    pool: &[u32],
    family: Family,
    headers: &mut [u32],
    variables: &mut [u32],
    terms: &mut [u32],
) -> Result<Lengths, Short>
    requires { Grouping sheet.words.now pool.now (roots_of family (read_sheet sheet.words.now)) }
    ensures { Laid (term_of (form_of family))
        (groups_of sheet.entry.words.now (roots_of family (read_sheet sheet.entry.words.now)))
        headers.new variables.new terms.new result }
{
    let mut groups = Groups::new(headers, pool);
    let counted = families::tally_family(sheet, family, &mut groups);
    let Some(()) = counted else {
        return Err(Short::Headers);
    };
    let lengths = room_for(&groups, family.width(), variables.len(), terms.len())?;
    start_groups(&mut groups, terms);
    families::place_family(sheet, family, &mut groups, terms);
    groups.write_variables(variables);
    let n = groups.count();
    totals::fill_offsets(headers, n);
    Ok(lengths)
}
