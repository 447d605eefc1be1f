// What the telegram forms say of a line (rules L1 to L19).
ghost use Rattle.std.specs.Prelude.{◌≡◌, ◌+◌, ◌≤◌, length, sum_by};
ghost use Rattle.std.specs.Option.{option_copied};
ghost use Rattle.forms.specs.Rows.{forms};
ghost use Rattle.forms.specs.Forms.{on_line, of_type, of_letter, is_data, looked_of, look_in, type_row, form_of, by_master, by_slave, data_type, count_of, width_of};

use crate::lines::is_line;
use crate::rows::{Form, rows};
use characters::slices::wide;

// Whether a form is on a line.
#[tactic(auto, unfolding(crate::specs::Forms::on_line))]
pub(crate) fn on_line(form: Form, line: u8) -> bool
    ensures { result ≡ on_line form line }
{
    is_line(line) && form.lines[usize::from(line - 1)]
}

// Whether a form is of a type and on a line.
// Line, type and letter are u8, as a telegram has them, and stay arguments: the definitions take them apart, and most functions ask two of the three.
fn of_type(form: Form, line: u8, kind: u8) -> bool
    ensures { result ≡ of_type line kind form }
{
    form.kind == kind && on_line(form, line)
}

// Whether its first packet has a letter besides.
fn of_letter(form: Form, line: u8, kind: u8, letter: u8) -> bool
    ensures { result ≡ of_letter line kind letter form }
{
    form.letters[0] == letter && of_type(form, line, kind)
}

// Whether a form is the slave's data on a line: the slave sends it, and it is neither A nor N.
fn is_data(form: Form, line: u8) -> bool
    ensures { result ≡ is_data line form }
{
    !form.master && !matches!(form.kind, b'A' | b'N') && on_line(form, line)
}

// The first row of a type on a line. A row is lent, here and below, and copied once by who keeps it: each copy of a form on the way costs a reading some nanoseconds.
fn of_this_type(table: &[Form], line: u8, kind: u8) -> Option<&Form>
    ensures { looked_of (option_copied result) ≡ look_in table.now (of_type line kind) }
{
    table.iter().find(|form| of_type(**form, line, kind))
}

// The first of them whose first packet has a letter.
fn of_this_letter(table: &[Form], line: u8, kind: u8, letter: u8) -> Option<&Form>
    ensures { looked_of (option_copied result) ≡ look_in table.now (of_letter line kind letter) }
{
    table
        .iter()
        .find(|form| of_letter(**form, line, kind, letter))
}

// The first row that is the slave's data on a line.
fn of_data(table: &[Form], line: u8) -> Option<&Form>
    ensures { looked_of (option_copied result) ≡ look_in table.now (is_data line) }
{
    table.iter().find(|form| is_data(**form, line))
}

// The row of a type on a line by the letter of its first packet; where no row has the letter, the type's first row.
#[tactic(auto, unfolding(crate::specs::Forms::form_of, crate::specs::Forms::type_row))]
pub fn form_of(line: u8, kind: u8, letter: u8) -> Option<Form>
    ensures { looked_of result ≡ form_of line kind letter }
{
    let table = rows();
    of_this_letter(&table, line, kind, letter)
        .or_else(|| of_this_type(&table, line, kind))
        .copied()
}

// Whether the master sends this type on this line.
// Never inlined, as the two below: the table would lie on each caller's stack.
#[inline(never)]
#[tactic(auto, unfolding(crate::specs::Forms::type_row))]
pub fn by_master(line: u8, kind: u8) -> bool
    ensures { result ≡ by_master line kind }
{
    of_this_type(&rows(), line, kind).is_some_and(|form| form.master)
}

// Whether the slave sends this type on this line.
#[inline(never)]
#[tactic(auto, unfolding(crate::specs::Forms::type_row))]
pub(crate) fn by_slave(line: u8, kind: u8) -> bool
    ensures { result ≡ by_slave line kind }
{
    of_this_type(&rows(), line, kind).is_some_and(|form| !form.master)
}

// The slave's data type on a line (B, 5 or K), 0 where there is no such line.
// 0 and no Option: docs/PROMISES.md has it as Forms.data_type, which says 0.
#[inline(never)]
#[tactic(auto, unfolding(crate::specs::Forms::data_type))]
pub fn data_type(line: u8) -> u8
    ensures { result ≡ data_type line }
{
    of_data(&rows(), line).map_or(0, |form| form.kind)
}

// How many packets a form has, at most ten.
#[tactic(auto, unfolding(crate::specs::Forms::count_of))]
pub fn count_of(form: Form) -> usize
    ensures { result ≡ count_of form }
{
    usize::from(form.count).min(10)
}

// How many bytes packets fill, by the lengths of their values.
fn width_by(lens: &[u8]) -> usize
    requires { length lens.now ≤ 10 }
    ensures total { result ≡ sum_by (λ len. 1 + len) lens.now }
    ensures small { result ≤ 2560 }
{
    lens.iter().map(|len| 1 + wide(*len)).sum()
}

// How many bytes a form's packets fill.
#[tactic(auto, using(crate::proofs::Slots::count_small, crate::proofs::Slots::width_sum))]
pub fn width_of(form: Form) -> usize
    ensures { (result ≡ width_of form) × (result ≤ 2560) }
{
    let Form { lens, .. } = form;
    let count = count_of(form);
    width_by(&lens[..count])
}
