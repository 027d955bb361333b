// Placing the terms of monomials into their groups, and writing the groups' variables.
ghost use Rattle.std.specs.Prelude.{◌≡◌, Ok, [], ◌∷◌, ◌++◌, ◌+◌, ◌*◌, ◌≤◌, length, get_or, take, drop};
ghost use Rattle.std.proofs.lemmas.List.Edits.{sets};
ghost use Rattle.semantics.specs.Lists.{All};
ghost use Rattle.group.specs.Grouped.{Rows, tallied, row_place, row_size, row_vars, Spot, monomial_in, MonomialInside, list_of, InPool};
ghost use Rattle.group.specs.Grouped.{term_width, form_at, words_at, item_at, items_at, items_on, vars_in};
ghost use Rattle.group.specs.Waiting.{PlaceInside, pool_vars};
ghost use Rattle.group.specs.Groups.{tallies, MayPlace, Placed};

use crate::kept::Kept;
use crate::{Groups, search};

// The form of a term: two words in a constraint, three in an interaction.
#[derive(Clone, Copy, Debug, PartialEq, Eq)]
pub enum Form {
    Constraint,
    Interaction,
}

impl Form {
    // How many words a term has.
    pub fn width(self) -> usize
        ensures { result ≡ term_width self }
    {
        match self {
            Form::Constraint => 2,
            Form::Interaction => 3,
        }
    }
}

// What the terms of one list are placed under: the index of the constraint, or that of the interaction, and the field.
#[derive(Clone, Copy, Debug, PartialEq, Eq)]
pub enum Label {
    Constraint { index: u32 },
    Interaction { index: u32, field: u32 },
}

impl Label {
    // Term `at` becomes one under this label.
    #[inline(always)]
    fn put(self, terms: &mut [u32], at: usize, coef: u32)
        requires { term_width (form_at self) * at + term_width (form_at self) ≤ length terms.old }
        ensures { terms.new ≡ sets terms.old (term_width (form_at self) * at) (words_at self coef) }
    {
        match self {
            Label::Constraint { index } => {
                terms[2 * at..2 * at + 2].copy_from_slice(&[index, coef]);
            }
            Label::Interaction { index, field } => {
                terms[3 * at..3 * at + 3].copy_from_slice(&[coef, index, field]);
            }
        }
    }
}

impl<'a> Groups<'a> {
    // Places the term of the monomial that stands at `at`; its row is looked for near row `near`. Hands back the row; the next one is looked for near it.
    #[tactic(auto, using(crate::proofs::Headers::tallied_length))]
    pub fn place(&mut self, at: usize, label: Label, terms: &mut [u32], near: usize) -> usize
        requires { MayPlace (form_at label) self.old terms.old (item_at label (monomial_in self.old.pool.now at) ∷ [])
            × (get_or self.old.pool.now at 0 ≤ 14) × MonomialInside self.old.pool.now at }
        ensures placed { Placed (form_at label) self.old terms.old self.new terms.new (item_at label (monomial_in self.old.pool.now at) ∷ []) }
        ensures row { Spot (pool_vars self.old.pool.now at) (tallies self.old) (Ok result) }
    {
        let Ok(k) = self.find_near(at, near) else {
            unreachable!();
        };
        let row = 4 * k;
        let cursor = self.headers[row + 1];
        label.put(terms, cursor as usize, self.pool[at + 1]);
        self.headers[row + 1] = cursor + 1;
        k
    }

    // Places the terms of the monomials that are kept of a list.
    #[inline(always)]
    pub fn place_list(&mut self, list: Kept, label: Label, terms: &mut [u32])
        requires { MayPlace (form_at label) self.old terms.old (items_on label self.old.pool.now list) × All (PlaceInside self.old.pool.now) list }
        ensures { Placed (form_at label) self.old terms.old self.new terms.new (items_on label self.old.pool.now list.entry) }
    {
        let mut near = self.n;
        for at in list {
            near = self.place(at, label, terms, near);
        }
    }

    // Places the terms of a record's list.
    pub fn place_root(&mut self, node: usize, label: Label, terms: &mut [u32])
        requires { MayPlace (form_at label) self.old terms.old (items_at label (list_of self.old.pool.now node)) × InPool self.old.pool.now node }
        ensures { Placed (form_at label) self.old terms.old self.new terms.new (items_at label (list_of self.old.pool.now node)) }
    {
        let list = Kept::of(self.pool, node);
        self.place_list(list, label, terms);
    }

    // The variables of the rows, one after another.
    pub fn write_variables(&self, variables: &mut [u32])
        requires { length (vars_in (tallies self.now)) ≤ length variables.old }
        ensures { variables.new ≡ vars_in (tallies self.now) ++ drop (length (vars_in (tallies self.now))) variables.old }
    {
        write_variables(self.headers, self.n, self.pool, variables);
    }
}

// The variables of row i go to `at`; hands back where the next go.
fn write_row(headers: &[u32], i: usize, pool: &[u32], variables: &mut [u32], at: usize) -> usize
    requires { (4 * i + 4 ≤ length headers.now) × (row_place headers.now i + 2 + row_size headers.now i ≤ length pool.now)
        × (at + row_size headers.now i ≤ length variables.old) }
    ensures next { result ≡ at + row_size headers.now i }
    ensures written { variables.new ≡ take at variables.old ++ (row_vars headers.now pool.now i ++ drop result variables.old) }
{
    let vars = search::row_vars(headers, i, pool);
    let end = at + vars.len();
    slices::copy_front(vars, &mut variables[at..end]);
    end
}

// The variables of the n rows, one after another.
pub fn write_variables(headers: &[u32], n: usize, pool: &[u32], variables: &mut [u32])
    requires { Rows n headers.now pool.now × (length (vars_in (tallied n headers.now pool.now)) ≤ length variables.old) }
    ensures { variables.new ≡ vars_in (tallied n headers.now pool.now)
        ++ drop (length (vars_in (tallied n headers.now pool.now))) variables.old }
{
    let mut at: usize = 0;
    for i in 0..n {
        at = write_row(headers, i, pool, variables, at);
    }
}
