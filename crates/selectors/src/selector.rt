//! Selectors: which nodes a request names.

ghost use Rattle.std.specs.Prelude.{◌≡◌, ◌≢◌, Some, None, IfOk, IfErr, IsSome};
ghost use Rattle.selectors.specs.Selectors.{class_of, fault_of, method_of, name_of, package_of, selector_of};
ghost use Rattle.selectors.specs.Selectors.{unique_id_of};

use crate::selector_fault::SelectorFault;
use std::alloc::Global;
use unique_id::{Text, UidFault, UniqueId, both};

/// What a selector's text names.
#[derive(Clone, Copy)]
pub enum SelectorKind {
    /// A node, by the canonical text of its unique id.
    UniqueId,
    /// A class, by its name.
    Class,
    /// A method, by the name of its class, a hash, and its own segment's value.
    Method,
    /// The classes of a package and of those inside it, by the package's name.
    Package,
    /// Methods, by a pattern of `CLASS#METHOD` in which a star stands for any text.
    Name,
}

/// What names nodes of a tree; it covers them and all nodes below them.
#[derive(Drop)]
pub enum Selector {
    /// The node with this unique id; where this is a spare, its factory too.
    Uid(UniqueId),
    /// The nodes of this class name.
    Class(Text),
    /// The methods and test factories of this name, right below a node of this class name.
    Method { class: Text, method: Text },
    /// The classes whose name begins with this one and a dot, nested classes aside.
    Package(Text),
    /// The methods and test factories right below a node with a class name whose name, `CLASS#METHOD`,
    /// this pattern matches as a whole; a star stands for any text.
    Name(Text),
}

impl Selector {
    /// The selector of this kind that a text spells; a text that spells none is refusal 40, and an empty
    /// pattern of names refusal 43.
    pub fn parse(alloc: Global, kind: SelectorKind, text: &str) -> Result<Selector, SelectorFault>
        ensures ok { IfOk result (λ selector. selector_of kind text.now ≡ Some selector) }
        ensures refused { IfErr result (λ fault. fault ≢ SelectorFault.NoMemory → selector_of kind text.now ≡ None) }
        ensures fault { IfErr result (λ fault. fault ≢ SelectorFault.NoMemory → fault ≡ fault_of kind) }
        ensures no_memory { IfErr result
            (λ fault. fault ≡ SelectorFault.NoMemory → IsSome (selector_of kind text.now)) }
    {
        match kind {
            SelectorKind::UniqueId => unique_id(alloc, text),
            SelectorKind::Class => class(alloc, text),
            SelectorKind::Method => method(alloc, text),
            SelectorKind::Package => package(alloc, text),
            SelectorKind::Name => name(alloc, text),
        }
    }
}

/// The selector of the unique id that a text spells.
fn unique_id(alloc: Global, text: &str) -> Result<Selector, SelectorFault>
    ensures ok { IfOk result (λ selector. unique_id_of text.now ≡ Some selector) }
    ensures refused { IfErr result (λ fault. fault ≢ SelectorFault.NoMemory → unique_id_of text.now ≡ None) }
    ensures fault { IfErr result (λ fault. fault ≢ SelectorFault.NoMemory → fault ≡ SelectorFault.BadSelector) }
    ensures no_memory { IfErr result (λ fault. fault ≡ SelectorFault.NoMemory → IsSome (unique_id_of text.now)) }
{
    match UniqueId::parse(alloc, text) {
        Ok(id) => Ok(Selector::Uid(id)),
        Err(UidFault::NoMemory) => Err(SelectorFault::NoMemory),
        Err(_) => Err(SelectorFault::BadSelector),
    }
}

/// The selector of a class of this name.
fn class(alloc: Global, text: &str) -> Result<Selector, SelectorFault>
    ensures ok { IfOk result (λ selector. class_of text.now ≡ Some selector) }
    ensures refused { IfErr result (λ fault. fault ≢ SelectorFault.NoMemory → class_of text.now ≡ None) }
    ensures fault { IfErr result (λ fault. fault ≢ SelectorFault.NoMemory → fault ≡ SelectorFault.BadSelector) }
    ensures no_memory { IfErr result (λ fault. fault ≡ SelectorFault.NoMemory → IsSome (class_of text.now)) }
{
    if text.is_empty() {
        return Err(SelectorFault::BadSelector);
    }
    Ok(Selector::Class(Text::new(alloc, text)?))
}

/// The selector of a package of this name.
fn package(alloc: Global, text: &str) -> Result<Selector, SelectorFault>
    ensures ok { IfOk result (λ selector. package_of text.now ≡ Some selector) }
    ensures refused { IfErr result (λ fault. fault ≢ SelectorFault.NoMemory → package_of text.now ≡ None) }
    ensures fault { IfErr result (λ fault. fault ≢ SelectorFault.NoMemory → fault ≡ SelectorFault.BadSelector) }
    ensures no_memory { IfErr result (λ fault. fault ≡ SelectorFault.NoMemory → IsSome (package_of text.now)) }
{
    if text.is_empty() {
        return Err(SelectorFault::BadSelector);
    }
    Ok(Selector::Package(Text::new(alloc, text)?))
}

/// The pattern that a text spells.
fn name(alloc: Global, text: &str) -> Result<Selector, SelectorFault>
    ensures ok { IfOk result (λ selector. name_of text.now ≡ Some selector) }
    ensures refused { IfErr result (λ fault. fault ≢ SelectorFault.NoMemory → name_of text.now ≡ None) }
    ensures fault { IfErr result (λ fault. fault ≢ SelectorFault.NoMemory → fault ≡ SelectorFault.EmptyPattern) }
    ensures no_memory { IfErr result (λ fault. fault ≡ SelectorFault.NoMemory → IsSome (name_of text.now)) }
{
    if text.is_empty() {
        return Err(SelectorFault::EmptyPattern);
    }
    Ok(Selector::Name(Text::new(alloc, text)?))
}

ghost use Rattle.std.specs.List.{before_first, after_first};
ghost use Rattle.selectors.specs.Selectors.{is_hash};

/// The parts of a text before and behind its first hash; without one all of it stands before.
fn class_and_method(text: &str) -> (&str, &str)
    ensures class { result.0.now ≡ before_first is_hash text.now }
    ensures method { result.1.now ≡ after_first is_hash text.now }
{
    match text.split_once('#') {
        Some((class, method)) => (class, method),
        None => (text, ""),
    }
}

/// The selector of a method, spelled by its class, a hash and its name.
fn method(alloc: Global, text: &str) -> Result<Selector, SelectorFault>
    ensures ok { IfOk result (λ selector. method_of text.now ≡ Some selector) }
    ensures refused { IfErr result (λ fault. fault ≢ SelectorFault.NoMemory → method_of text.now ≡ None) }
    ensures fault { IfErr result (λ fault. fault ≢ SelectorFault.NoMemory → fault ≡ SelectorFault.BadSelector) }
    ensures no_memory { IfErr result (λ fault. fault ≡ SelectorFault.NoMemory → IsSome (method_of text.now)) }
{
    let (class, method) = class_and_method(text);
    if class.is_empty() || method.is_empty() {
        return Err(SelectorFault::BadSelector);
    }
    let (class, method) = both(Text::new(alloc, class), Text::new(alloc, method))?;
    Ok(Selector::Method { class, method })
}
