// The policies that a filter admits, by the numbers of their keys' names in columns.
ghost use Rattle.std.specs.Prelude.{◌≡◌, ◌<◌, ◌≤◌, ◌^◌, [], length, List, IfOk, OnOk};
ghost use Rattle.std.specs.List.{AllZip};
ghost use Rattle.lane_scan.specs.Rows.{numbers_from};
ghost use Rattle.cynara_keys.specs.Field.{field_of};
ghost use Rattle.cynara_keys.specs.Key.{filter_admits};
ghost use Rattle.cynara_keys.specs.declared.fields.Field.{Field};
ghost use Rattle.cynara_keys.specs.declared.keys.Policy.{Policy as PolicyValue};
ghost use Rattle.bucket_store.specs.Refusal.{most_policies};
ghost use Rattle.bucket_store.specs.parts.Numbering.{IsAskedNumber, IsNext, IsRow, wanted_number};
ghost use Rattle.bucket_store.specs.parts.Rows.{PushedRow};

use crate::name_numbers::NameNumbers;
use cynara_keys::{Filter, FilterField, Policy};
use lane_scan::Columns;
use std::alloc::{AllocError, Global};

/// The places of the policies whose keys the filter admits, in rising order.
pub fn admitted_rows(
    alloc: Global,
    policies: &[Policy],
    filter: &Filter,
) -> Result<Vec<u32>, AllocError>
    requires { length policies.now ≤ most_policies }
    ensures { IfOk result
        (λ rows. rows.items ≡ numbers_from 0 (λ policy. filter_admits filter.now policy.key) policies.now) }
{
    let mut names = NameNumbers::new(alloc);
    let columns = numbered(alloc, policies, filter, &mut names)?;
    selected(alloc, &columns, &names, filter)
}

// A row for each policy, of the numbers of the names that the filter asks for.
fn numbered<'a>(
    alloc: Global,
    policies: &'a [Policy],
    filter: &Filter,
    names: &mut NameNumbers<'a>,
) -> Result<Columns, AllocError>
    requires none { names.old ≡ [] }
    requires room { length policies.now ≤ most_policies }
    ensures rows { IfOk result (AllZip (IsRow names.new filter.now) policies.now) }
    ensures few { OnOk result (length names.new < 2 ^ 31) }
{
    let mut columns = Columns::new(alloc);
    for policy in policies {
        push_row(&mut columns, names, filter, policy)?;
    }
    Ok(columns)
}

// Appends the row of a policy.
fn push_row<'a>(
    columns: &mut Columns,
    names: &mut NameNumbers<'a>,
    filter: &Filter,
    policy: &'a Policy,
) -> Result<(), AllocError>
    requires room { length columns.old < most_policies }
    requires few { length names.old < 2 ^ 30 }
    ensures { OnOk result (PushedRow names.old names.new filter.now policy.now columns.old columns.new) }
{
    let client = asked_number(names, &filter.client, policy.key.client())?;
    let user = asked_number(names, &filter.user, policy.key.user())?;
    let privilege = asked_number(names, &filter.privilege, policy.key.privilege())?;
    columns.push(client, user, privilege)?;
    Ok(())
}

// The number of a field's text, or any number where the filter does not ask for the field.
fn asked_number<'a>(
    names: &mut NameNumbers<'a>,
    asked: &FilterField,
    text: &'a [u8],
) -> Result<u32, AllocError>
    requires { length names.old < 2 ^ 31 }
    ensures number { IfOk result (λ number.
        (field : Field) → field_of text.now ≡ field → IsAskedNumber names.new asked.now field number) }
    ensures next { OnOk result (IsNext names.old names.new) }
{
    match asked {
        FilterField::Every => Ok(0),
        FilterField::Any => names.number(text),
        FilterField::Exact(_) => names.number(text),
    }
}

// The rows that have the numbers that the filter asks for: none where it asks for a name that has no number.
fn selected(
    alloc: Global,
    columns: &Columns,
    names: &NameNumbers<'_>,
    filter: &Filter,
) -> Result<Vec<u32>, AllocError>
    requires { length names.now < 2 ^ 31 }
    ensures { IfOk result (λ rows. (policies : List PolicyValue)
        → AllZip (IsRow names.now filter.now) policies columns.now
        → rows.items ≡ numbers_from 0 (λ policy. filter_admits filter.now policy.key) policies) }
{
    let mut rows = Vec::new(alloc);
    let Some(client) = wanted(names, &filter.client) else {
        return Ok(rows);
    };
    let Some(user) = wanted(names, &filter.user) else {
        return Ok(rows);
    };
    let Some(privilege) = wanted(names, &filter.privilege) else {
        return Ok(rows);
    };
    columns.select([client, user, privilege], &mut rows)?;
    Ok(rows)
}

// What a filter's field asks of a number; none where no number has what it asks.
fn wanted(names: &NameNumbers<'_>, asked: &FilterField) -> Option<Option<u32>>
    requires { length names.now < 2 ^ 31 }
    ensures { result ≡ wanted_number names.now asked.now }
{
    match asked {
        FilterField::Every => Some(None),
        FilterField::Any => Some(Some(0)),
        FilterField::Exact(name) => match names.find(name.as_slice()) {
            Some(number) => Some(Some(number)),
            None => None,
        },
    }
}
