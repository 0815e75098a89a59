//! Reading a set of files.

ghost use Rattle.std.specs.Prelude.{◌≡◌, ◌∷◌, [], None, map, Ok, IsTrue, IfOk, IfErr, MatchResult};
ghost use Rattle.std.specs.List.{AllByRecursion};
ghost use Rattle.app_registry.specs.Registry.{has_package, packages as packages_of};
ghost use Rattle.desk_ports.specs.FileMap.{NamesRise, names_of};
ghost use Rattle.desk_state.specs.DeskState.{package_rules};
ghost use Rattle.set_text.specs.Fault.{unlike};
ghost use Rattle.set_text.specs.FileNames as word;
ghost use Rattle.set_text.specs.Files.{files};
ghost use Rattle.set_text.specs.Reading.{odd_file, load_fault, read_of};
ghost use Rattle.set_text.specs.Refusal.{Refuses};
ghost use Rattle.set_text.specs.Template.{load_text};
ghost use Rattle.set_text.specs.parts.Kept.{AreSound};
ghost use Rattle.set_text.specs.parts.Names.{RefusesTest};
ghost use Rattle.set_text.specs.parts.Parts.{stamp_part, headings_part, registry_part, template_part, beside};
ghost use Rattle.set_text.specs.parts.Stages as stage;

use crate::bucket_files::{buckets_in, headings_in, test_bucket_files};
use crate::file_names::{APPS, STAMP, Sort, TEMPLATE, USERS, fixed_files, load_file};
use crate::headings::BucketHeading;
use crate::layouts::{test_fallbacks, test_layout, test_managed};
use crate::lines::FileFault;
use crate::load_files::{package_text, packages_of};
use crate::refusals::TextRefusal;
use crate::registries::read_installs;
use crate::sets::{bytes_of, damaged, in_file, test_names, test_text};
use crate::stamps::read_stamp;
use crate::templates::read_template;
use crate::users::read_users;
use app_registry::{Ident, Registry};
use bucket_store::{Bucket, Database};
use desk_ports::{FileName, FileSet, SetFile};
use desk_state::Desk;
use rule_templates::Template;
use std::alloc::{AllocError, Global};

// What all files but `template` and the load files say.
#[derive(Drop)]
struct Parts {
    commit: u64,
    headings: Vec<BucketHeading>,
    buckets: Vec<Bucket>,
    registry: Registry,
}

/// Reads a set of files: the one policy state that has these files. Refuses a set of no state with its first fault:
/// first the files that every set has and no one knows; then `stamp` and `buckets`; then absent and surplus files of
/// buckets; then the lines of these, of `users` and of `apps`; then absent and surplus load files; then `template`; and
/// then what the parts say together: cycles and the layout, `_MAIN` and `_MANIFESTS`, their fallbacks, and the load
/// files.
pub fn read(alloc: Global, set: &FileSet) -> Result<Desk, TextRefusal>
    ensures read { IfOk result (λ desk. read_of set.now ≡ Ok desk) }
    ensures again { IfOk result (λ desk. files desk ≡ set.now) }
    ensures refused { IfErr result (λ refusal. Refuses refusal (read_of set.now)) }
{
    let files = set.as_slice();
    match parts_in(alloc, files) {
        Ok(parts) => with_template(alloc, files, parts),
        Err(refusal) => Err(refusal),
    }
}

// Reads all files but `template` and the load files.
fn parts_in(alloc: Global, files: &[SetFile]) -> Result<Parts, TextRefusal>
    requires { NamesRise (names_of files.now) }
    ensures read { IfOk result (λ parts. read_of files.now
        ≡ stage.with_template files.now parts.commit parts.buckets.items parts.registry) }
    ensures sound { IfOk result (λ parts. AreSound parts.headings.items parts.buckets.items) }
    ensures refused { IfErr result (λ refusal. Refuses refusal (read_of files.now)) }
{
    test_fixed(alloc, files)?;
    let commit = stamp_in(alloc, files)?;
    let headings = headings_in(alloc, files)?;
    with_buckets(alloc, files, commit, headings)
}

// Reads the files of these buckets, `users` and `apps`.
fn with_buckets(
    alloc: Global,
    files: &[SetFile],
    commit: u64,
    headings: Vec<BucketHeading>,
) -> Result<Parts, TextRefusal>
    requires rising { NamesRise (names_of files.now) }
    requires read { read_of files.now ≡ stage.with_buckets files.now commit headings.items }
    requires headings { headings_part files.now ≡ Ok headings.items }
    ensures read { IfOk result (λ parts. read_of files.now
        ≡ stage.with_template files.now parts.commit parts.buckets.items parts.registry) }
    ensures sound { IfOk result (λ parts. AreSound parts.headings.items parts.buckets.items) }
    ensures refused { IfErr result (λ refusal. Refuses refusal (read_of files.now)) }
{
    match test_bucket_files(alloc, files, &headings) {
        Ok(()) => {}
        Err(refusal) => return Err(refusal),
    }
    let buckets = match buckets_in(alloc, files, &headings) {
        Ok(buckets) => buckets,
        Err(refusal) => return Err(refusal),
    };
    let registry = match registry_in(alloc, files) {
        Ok(registry) => registry,
        Err(refusal) => return Err(refusal),
    };
    Ok(Parts {
        commit,
        headings,
        buckets,
        registry,
    })
}

// Reads `template`, and tests the load files and what the parts say together.
fn with_template(alloc: Global, files: &[SetFile], parts: Parts) -> Result<Desk, TextRefusal>
    requires rising { NamesRise (names_of files.now) }
    requires read { read_of files.now ≡ stage.with_template files.now parts.commit parts.buckets.items parts.registry }
    requires sound { AreSound parts.headings.items parts.buckets.items }
    ensures read { IfOk result (λ desk. read_of files.now ≡ Ok desk) }
    ensures refused { IfErr result (λ refusal. Refuses refusal (read_of files.now)) }
{
    let packages = match packages_of(alloc, parts.registry.installs()) {
        Ok(packages) => packages,
        Err(error) => return Err(TextRefusal::Memory(error)),
    };
    test_load_files(alloc, files, &packages)?;
    let template = template_in(alloc, files)?;
    test_together(alloc, files, &parts, &packages, &template)?;
    Ok(Desk::of(
        parts.commit,
        Database::of(parts.buckets),
        parts.registry,
        template,
    ))
}

// Tests what the parts say together.
fn test_together(
    alloc: Global,
    files: &[SetFile],
    parts: &Parts,
    packages: &[Ident],
    template: &Template,
) -> Result<(), TextRefusal>
    requires rising { NamesRise (names_of files.now) }
    requires sound { AreSound parts.now.headings.items parts.now.buckets.items }
    requires packages { packages.now ≡ packages_of parts.now.registry.installs }
    ensures { let desk = stage.desk_of parts.now.commit parts.now.buckets.items parts.now.registry template.now in
        MatchResult result (λ done. stage.joint_fault files.now desk ≡ None)
        (λ refusal. RefusesTest refusal (stage.joint_fault files.now desk)) }
{
    test_layout(alloc, &parts.headings, &parts.buckets, &parts.registry)?;
    test_managed(alloc, files, &parts.headings, &parts.registry)?;
    test_fallbacks(alloc, &parts.headings)?;
    test_rules(alloc, files, template, &parts.registry, packages)
}

// The files are there that every set has, and no others beside those of buckets and packages.
fn test_fixed(alloc: Global, files: &[SetFile]) -> Result<(), TextRefusal>
    ensures { MatchResult result (λ done. odd_file word.is_other_file word.fixed_files files.now ≡ None)
        (λ refusal. RefusesTest refusal (odd_file word.is_other_file word.fixed_files files.now)) }
{
    match fixed_files(alloc) {
        Ok(names) => test_names(alloc, files, Sort::Other, &names),
        Err(error) => Err(TextRefusal::Memory(error)),
    }
}

fn stamp_in(alloc: Global, files: &[SetFile]) -> Result<u64, TextRefusal>
    requires { NamesRise (names_of files.now) }
    ensures { MatchResult result (λ commit. stamp_part files.now ≡ Ok (commit ∷ []))
        (λ refusal. Refuses refusal (stamp_part files.now)) }
{
    match read_stamp(bytes_of(files, STAMP)) {
        Ok(commit) => Ok(commit),
        Err(line) => Err(damaged(alloc, STAMP, line)),
    }
}

fn registry_in(alloc: Global, files: &[SetFile]) -> Result<Registry, TextRefusal>
    requires { NamesRise (names_of files.now) }
    ensures { MatchResult result (λ registry. registry_part files.now ≡ Ok registry)
        (λ refusal. Refuses refusal (registry_part files.now)) }
{
    let users = match read_users(alloc, bytes_of(files, USERS)) {
        Ok(users) => users,
        Err(fault) => return Err(in_file(alloc, USERS, fault)),
    };
    match read_installs(alloc, &users, bytes_of(files, APPS)) {
        Ok(installs) => Ok(Registry::of(users, installs)),
        Err(fault) => Err(in_file(alloc, APPS, fault)),
    }
}

fn template_in(alloc: Global, files: &[SetFile]) -> Result<Template, TextRefusal>
    requires { NamesRise (names_of files.now) }
    ensures { MatchResult result (λ template. template_part files.now ≡ Ok template)
        (λ refusal. Refuses refusal (template_part files.now)) }
{
    match read_template(alloc, bytes_of(files, TEMPLATE)) {
        Ok(template) => Ok(template),
        Err(fault) => Err(in_file(alloc, TEMPLATE, fault)),
    }
}

// The load files are those of these packages.
fn test_load_files(alloc: Global, files: &[SetFile], packages: &[Ident]) -> Result<(), TextRefusal>
    ensures { MatchResult result (λ done. odd_file word.is_load_file (map word.load_file packages.now) files.now ≡ None)
        (λ refusal. RefusesTest refusal (odd_file word.is_load_file (map word.load_file packages.now) files.now)) }
{
    match load_file_names(alloc, packages) {
        Ok(names) => test_names(alloc, files, Sort::Load, &names),
        Err(error) => Err(TextRefusal::Memory(error)),
    }
}

fn load_file_names(alloc: Global, packages: &[Ident]) -> Result<Vec<FileName>, AllocError>
    ensures { IfOk result (λ names. names.items ≡ map word.load_file packages.now) }
{
    let mut names = Vec::new(alloc);
    for package in packages {
        names.push(load_file(alloc, package)?)?;
    }
    Ok(names)
}

// Each load file has the rules that the template gives.
fn test_rules(
    alloc: Global,
    files: &[SetFile],
    template: &Template,
    registry: &Registry,
    packages: &[Ident],
) -> Result<(), TextRefusal>
    requires rising { NamesRise (names_of files.now) }
    requires installed { AllByRecursion (λ name. IsTrue (has_package registry.now name)) packages.now }
    ensures { MatchResult result
        (λ done. load_fault files.now (beside registry.now template.now) packages.now ≡ None)
        (λ refusal. RefusesTest refusal (load_fault files.now (beside registry.now template.now) packages.now)) }
{
    for package in packages {
        match test_package(alloc, files, template, registry, package) {
            Ok(()) => {}
            Err(refusal) => return Err(refusal),
        }
    }
    Ok(())
}

fn test_package(
    alloc: Global,
    files: &[SetFile],
    template: &Template,
    registry: &Registry,
    package: &Ident,
) -> Result<(), TextRefusal>
    requires rising { NamesRise (names_of files.now) }
    requires installed { IsTrue (has_package registry.now «package».now) }
    ensures { let text = load_text (package_rules (beside registry.now template.now) «package».now) in
        MatchResult result (λ done. unlike files.now (word.load_file «package».now) text ≡ None)
        (λ refusal. RefusesTest refusal (unlike files.now (word.load_file «package».now) text)) }
{
    let name = match load_file(alloc, package) {
        Ok(name) => name,
        Err(error) => return Err(TextRefusal::Memory(error)),
    };
    match package_text(alloc, template, registry, package) {
        Ok(text) => test_text(alloc, files, name.as_slice(), &text),
        Err(error) => Err(TextRefusal::Memory(error)),
    }
}
