//! A suite that grows line by line.

ghost use Rattle.std.specs.Prelude.{◌≡◌, ◌≢◌, ◌≤◌, ◌<◌, ◌+◌, length, OnOk, OnErr, IfOk, IfErr, IfSome, Some, None};
ghost use Rattle.std.specs.Prelude.{Ok, false, true, [], ◌∷◌, ◌++◌, take, map, vec_len, vec_capacity, option_to_list};

use crate::suite::Suite;
use config_params::Params;
use descriptor::{BodyId, Locks, Node, NodeId, NodeLimit, Tree, TreeBuilder, TreeFault};
use plan_events::Status;
use std::alloc::{AllocError, Global};
use std::marker::Model;
use suite_words::{
    Declared, LineWord, Pending, Script, SuiteFault, Word, after_in, all_settled, declared_as,
    indentation, is_property, level_at, lines_below, next_word, put_property, says_nothing,
};
use unique_id::{Text, UidFault, UniqueId};

/// A node that the next line may hang below, and the keyword of its line.
#[derive(Clone, Copy)]
pub(crate) struct Opened {
    pub(crate) node: NodeId,
    pub(crate) word: Word,
}

/// The tree, the scripts and the properties of the lines so far, the last node with those above it,
/// and how many nodes there may be.
pub(crate) struct SuiteBuilder {
    limit: NodeLimit,
    tree: TreeBuilder,
    path: Vec<Opened>,
    scripts: Vec<Pending>,
    // those of after-bodies, in the order of their lines
    afters: Vec<Script>,
    properties: Params,
}

impl Drop for SuiteBuilder {
    fn drop(self) {
        let SuiteBuilder {
            limit: _,
            tree: _,
            path: _,
            scripts: _,
            afters: _,
            properties: _,
        } = self;
    }
}

impl Model for SuiteBuilder {
    ghost use Rattle.suite_text.specs.Reading.Parts.{LinesRead};
    ghost use Rattle.suite_text.specs.Inside.Paths.{IsSound};

    ghost Value = { LinesRead };

    ghost view = { λ b. record {
      limit = b.limit;
      tree = b.tree;
      path = b.path.items;
      scripts = b.scripts.items;
      afters =
          b.afters.items;
      properties = b.properties;
    } };

    ghost invariant = { λ b. IsSound
        (record {
          limit = b.limit;
          tree = b.tree;
          path = b.path.items;
          scripts = b.scripts.items;
          afters = b.afters.items;
          properties =
              b.properties;
        }) };
}

ghost use Rattle.unique_id.specs.Spelling.{refusal};
ghost use Rattle.descriptor.specs.Nodes.{size, appended, IsTree, MayTake};
ghost use Rattle.descriptor.specs.Bodies.{with_after};
ghost use Rattle.descriptor.specs.Refusals.{refusal as tree_refusal, after_refusal};
ghost use Rattle.suite_text.specs.Reading.Parts.{above, word_of_opened, node_of_opened};
ghost use Rattle.suite_text.specs.Inside.FewLocks.{DoesFor};
ghost use Rattle.suite_words.specs.Reading.Locks.{StandFor};
ghost use Rattle.suite_words.specs.Reading.Words.{declaration_of};
ghost use Rattle.suite_words.specs.Reading.Nodes.{id_at, id_declared, segment_kind, value_of_dyn, value_declared, node_with, node_declared, is_over_limit};
ghost use Rattle.suite_text.specs.Reading.Nodes.{place_on, word_on, refusal_on, grown};
ghost use Rattle.suite_words.specs.Reading.After.{after_body};
ghost use Rattle.suite_words.specs.Reading.Pulls.{settled};
ghost use Rattle.suite_words.specs.Reading.Scripts.{ending};
ghost use Rattle.suite_words.specs.Reading.Verdicts.{reason_declared};

/// The unique id of a node below this one, or at level 0.
fn id_below(
    alloc: Global,
    tree: &Tree,
    parent: Option<Opened>,
    kind: &str,
    name: &str,
) -> Result<UniqueId, UidFault>
    requires { IfSome parent (λ opened. (0 < opened.node) × (opened.node < size tree.now)) }
    ensures ok { IfOk result (λ id. id ≡ id_at tree.now (node_of_opened parent)
        ++ record { kind = kind.now; value = name.now } ∷ []) }
    ensures accepted { IfOk result (λ _. refusal (id_at tree.now (node_of_opened parent)) kind.now name.now ≡ None) }
    ensures refused { IfErr result (λ fault. fault ≢ UidFault.NoMemory →
        refusal (id_at tree.now (node_of_opened parent)) kind.now name.now ≡ Some fault) }
{
    match parent {
        None => UniqueId::of(alloc, kind, name),
        Some(opened) => tree.node(opened.node).id.append(alloc, kind, name),
    }
}

/// The name that a line declares, why its node is disabled, and its locks: all of a node that takes
/// memory but its unique id.
fn texts_of(
    alloc: Global,
    declared: &Declared<'_>,
) -> Result<(Option<Text>, Text, Locks), AllocError>
    ensures reason { IfOk result (λ made. made.0 ≡ reason_declared declared.now.verdict declared.now.text.now) }
    ensures name { IfOk result (λ made. made.1 ≡ declared.now.name.now) }
    ensures locks { IfOk result (λ made. StandFor made.2 declared.now.attributes.locks) }
{
    let disabled = declared.reason(alloc)?;
    let name = Text::new(alloc, declared.name)?;
    let locks = declared.attributes.locks.in_order(alloc)?;
    Ok((disabled, name, locks))
}

/// The node of this unique id and number that a line declares.
fn node_with(
    alloc: Global,
    id: UniqueId,
    number: u16,
    declared: Declared<'_>,
) -> Result<Node, AllocError>
    ensures { IfOk result (λ node. DoesFor node (node_with number id (declaration_of declared.entry))) }
{
    let (disabled, name, locks) = texts_of(alloc, &declared)?;
    let body = declared.body(number);
    Ok(Node {
        id,
        name,
        kind: declared.word.kind(),
        role: declared.word.role(),
        mode: declared.attributes.mode,
        locks,
        isolated: declared.attributes.isolated,
        body,
        after: None,
        disabled,
        tags: declared.attributes.tags,
    })
}

/// The unique id of the dynamic test that is the child of this place, from 1, of this node.
fn id_of_dyn(
    alloc: Global,
    tree: &Tree,
    parent: Option<Opened>,
    kind: &str,
    place: u16,
) -> Result<UniqueId, UidFault>
    requires { IfSome parent (λ opened. (0 < opened.node) × (opened.node < size tree.now)) }
    ensures ok { IfOk result (λ id. id ≡ id_at tree.now (node_of_opened parent)
        ++ record { kind = kind.now; value = value_of_dyn place } ∷ []) }
    ensures accepted { IfOk result (λ _. refusal (id_at tree.now (node_of_opened parent)) kind.now
        (value_of_dyn place) ≡ None) }
    ensures refused { IfErr result (λ fault. fault ≢ UidFault.NoMemory →
        refusal (id_at tree.now (node_of_opened parent)) kind.now (value_of_dyn place) ≡ Some fault) }
{
    let value = format!(in alloc; "#{place}")?;
    id_below(alloc, tree, parent, kind, value.as_str())
}

/// The unique id of the node that a line declares as the child of this place, from 1, of this one,
/// or at level 0.
fn id_declared(
    alloc: Global,
    tree: &Tree,
    parent: Option<Opened>,
    kind: &str,
    place: u16,
    declared: &Declared<'_>,
) -> Result<UniqueId, UidFault>
    requires { IfSome parent (λ opened. (0 < opened.node) × (opened.node < size tree.now)) }
    ensures ok { IfOk result (λ id. id ≡ id_at tree.now (node_of_opened parent)
        ++ record { kind = kind.now; value = value_declared (declaration_of declared.now) place } ∷ []) }
    ensures accepted { IfOk result (λ _. refusal (id_at tree.now (node_of_opened parent)) kind.now
        (value_declared (declaration_of declared.now) place) ≡ None) }
    ensures refused { IfErr result (λ fault. fault ≢ UidFault.NoMemory →
        refusal (id_at tree.now (node_of_opened parent)) kind.now (value_declared (declaration_of declared.now) place)
        ≡ Some fault) }
{
    if declared.word.role().is_spare() {
        return id_of_dyn(alloc, tree, parent, kind, place);
    }
    id_below(alloc, tree, parent, kind, declared.name)
}

/// The unique id that `id_declared` gives; all its refusals but want of memory are `OverLimit`.
fn id_within(
    alloc: Global,
    tree: &Tree,
    parent: Option<Opened>,
    kind: &str,
    place: u16,
    declared: &Declared<'_>,
) -> Result<UniqueId, TreeFault>
    requires parent { IfSome parent (λ opened. (0 < opened.node) × (opened.node < size tree.now)) }
    requires kind { kind.now ≡ segment_kind (word_of_opened parent) declared.now.word }
    ensures ok { IfOk result (λ id. id ≡ id_declared (word_of_opened parent)
        (id_at tree.now (node_of_opened parent)) place (declaration_of declared.now)) }
    ensures accepted { IfOk result (λ _. is_over_limit (id_at tree.now (node_of_opened parent))
        (word_of_opened parent) place (declaration_of declared.now) ≡ false) }
    ensures refused { IfErr result (λ fault. fault ≢ TreeFault.NoMemory → (fault ≡ TreeFault.OverLimit)
        × (is_over_limit (id_at tree.now (node_of_opened parent)) (word_of_opened parent) place
        (declaration_of declared.now) ≡ true)) }
{
    match id_declared(alloc, tree, parent, kind, place, declared) {
        Ok(id) => Ok(id),
        Err(UidFault::NoMemory) => Err(TreeFault::NoMemory),
        Err(_) => Err(TreeFault::OverLimit),
    }
}

/// The node of this number that a line declares as the child of this place, from 1, of this one, or
/// at level 0.
fn node_below(
    alloc: Global,
    tree: &Tree,
    parent: Option<Opened>,
    place: u16,
    number: u16,
    declared: Declared<'_>,
) -> Result<Node, TreeFault>
    requires { IfSome parent (λ opened. (0 < opened.node) × (opened.node < size tree.now)) }
    ensures ok { IfOk result (λ node. DoesFor node
        (node_declared number (word_of_opened parent) (id_at tree.now (node_of_opened parent)) place
        (declaration_of declared.entry))) }
    ensures accepted { IfOk result (λ _. is_over_limit (id_at tree.now (node_of_opened parent))
        (word_of_opened parent) place (declaration_of declared.entry) ≡ false) }
    ensures refused { IfErr result (λ fault. fault ≢ TreeFault.NoMemory → (fault ≡ TreeFault.OverLimit)
        × (is_over_limit (id_at tree.now (node_of_opened parent)) (word_of_opened parent) place
        (declaration_of declared.entry) ≡ true)) }
{
    let kind = declared.word.segment_type(parent.map(|opened| opened.word));
    let id = id_within(alloc, tree, parent, kind, place, &declared)?;
    Ok(node_with(alloc, id, number, declared)?)
}

/// Makes a node the last of a path, on this level.
fn open_on(path: &mut Vec<Opened>, level: usize, opened: Opened)
    requires { vec_len path.old < vec_capacity path.old }
    ensures { path.new.items ≡ take level path.old.items ++ opened ∷ [] }
{
    path.truncate(level);
    path.push_reserved(opened);
}

/// Makes room for one more open node and one more script.
fn make_room(path: &mut Vec<Opened>, scripts: &mut Vec<Pending>) -> Result<(), AllocError>
    ensures path { path.new.items ≡ path.old.items }
    ensures scripts { scripts.new.items ≡ scripts.old.items }
    ensures path_room { OnOk result (vec_len path.new < vec_capacity path.new) }
    ensures scripts_room { OnOk result (vec_len scripts.new < vec_capacity scripts.new) }
{
    path.reserve(1)?;
    scripts.reserve(1)
}

/// Adds the script of a node, where it has one.
fn push_script(scripts: &mut Vec<Pending>, script: Option<Pending>)
    requires { vec_len scripts.old < vec_capacity scripts.old }
    ensures { scripts.new.items ≡ scripts.old.items ++ option_to_list script }
{
    if let Some(script) = script {
        scripts.push_reserved(script);
    }
}

/// A node that is to be added, the keyword of its line, and the script of its body.
#[derive(Drop)]
struct NewNode {
    word: Word,
    node: Node,
    script: Option<Pending>,
}

/// Adds a node below this one, where there may be so many, and its script, for which there is room.
fn hang(
    alloc: Global,
    limit: NodeLimit,
    tree: &mut TreeBuilder,
    scripts: &mut Vec<Pending>,
    parent: NodeId,
    made: NewNode,
) -> Result<NodeId, TreeFault>
    requires taken { MayTake tree.old parent }
    requires room { vec_len scripts.old < vec_capacity scripts.old }
    ensures number { IfOk result (λ number. number ≡ size tree.old) }
    ensures accepted { OnOk result (tree_refusal limit tree.old parent made.node ≡ None) }
    ensures tree { OnOk result (tree.new ≡ appended tree.old parent made.node) }
    ensures scripts { OnOk result (scripts.new.items ≡ scripts.old.items ++ option_to_list made.script) }
    ensures refused { IfErr result (λ fault. fault ≢ TreeFault.NoMemory → tree_refusal limit tree.old parent made.node ≡ Some
        fault) }
    ensures tree_kept { OnErr result (tree.new ≡ tree.old) }
    ensures scripts_kept { OnErr result (scripts.new.items ≡ scripts.old.items) }
{
    let NewNode { node, script, .. } = made;
    let number = tree.add(alloc, limit, parent, node)?;
    push_script(scripts, script);
    Ok(number)
}

/// Adds a node below this one, where there may be so many, on this level of the path, and its script.
fn grow(
    alloc: Global,
    limit: NodeLimit,
    tree: &mut TreeBuilder,
    path: &mut Vec<Opened>,
    scripts: &mut Vec<Pending>,
    parent: NodeId,
    level: usize,
    made: NewNode,
) -> Result<(), TreeFault>
    requires { MayTake tree.old parent }
    ensures accepted { OnOk result (tree_refusal limit tree.old parent made.node ≡ None) }
    ensures tree { OnOk result (tree.new ≡ appended tree.old parent made.node) }
    ensures path { OnOk result (path.new.items ≡ take level path.old.items
        ++ record { node = size tree.old; word = made.word } ∷ []) }
    ensures scripts { OnOk result (scripts.new.items ≡ scripts.old.items ++ option_to_list made.script) }
    ensures refused { IfErr result (λ fault. fault ≢ TreeFault.NoMemory → tree_refusal limit tree.old parent made.node ≡ Some
        fault) }
    ensures tree_kept { OnErr result (tree.new ≡ tree.old) }
    ensures path_kept { OnErr result (path.new.items ≡ path.old.items) }
    ensures scripts_kept { OnErr result (scripts.new.items ≡ scripts.old.items) }
{
    if let Err(fault) = make_room(path, scripts) {
        // one call, where `?` writes out the drop of each field
        drop(made);
        return Err(TreeFault::from(fault));
    }
    let word = made.word;
    let node = hang(alloc, limit, tree, scripts, parent, made)?;
    open_on(path, level, Opened { node, word });
    Ok(())
}

/// Gives a class its after-body, which ends with this status and text, and adds the script of that.
fn give_after(
    alloc: Global,
    tree: &mut TreeBuilder,
    afters: &mut Vec<Script>,
    class: NodeId,
    status: Status,
    text: &str,
) -> Result<(), TreeFault>
    requires inside { class < size tree.old }
    requires few { class < 16384 }
    ensures accepted { OnOk result (after_refusal tree.old class (after_body class) ≡ None) }
    ensures tree { OnOk result (tree.new ≡ with_after tree.old class (after_body class)) }
    ensures afters { OnOk result (afters.new.items ≡ afters.old.items
        ++ ending (after_body class) 0 None 0 status text.now ∷ []) }
    ensures refused { IfErr result (λ fault. fault ≢ TreeFault.NoMemory → after_refusal tree.old class
        (after_body class) ≡ Some fault) }
    ensures tree_kept { OnErr result (tree.new ≡ tree.old) }
    ensures afters_kept { OnErr result (afters.new.items ≡ afters.old.items) }
{
    let body = BodyId::after(class);
    afters.reserve(1)?;
    let script = Script::ending(alloc, body, 0, None, 0, status, text)?;
    tree.set_after(class, body)?;
    afters.push_reserved(script);
    Ok(())
}

/// The suite of a tree, of its scripts, whose pulls may follow from it, of those of after-bodies,
/// and of what is said of the configuration.
fn suite_with(
    alloc: Global,
    tree: Tree,
    scripts: Vec<Pending>,
    afters: Vec<Script>,
    properties: Params,
) -> Result<Suite, AllocError>
    ensures tree { IfOk result (λ suite. suite.tree ≡ tree) }
    ensures scripts { IfOk result (λ suite. suite.scripts.items ≡ map (settled tree) scripts.items ++ afters.items) }
    ensures properties { IfOk result (λ suite. suite.properties ≡ properties) }
{
    let scripts = all_settled(alloc, &tree, scripts, afters)?;
    Ok(Suite {
        tree,
        scripts,
        properties,
    })
}

/// The node, or the plan where there is none.
fn node_or_plan(opened: Option<Opened>) -> NodeId
    ensures { result ≡ node_of_opened opened }
{
    match opened {
        None => NodeId::ROOT,
        Some(opened) => opened.node,
    }
}

impl SuiteBuilder {
    ghost use Rattle.suite_text.specs.Reading.Parts.{no_lines, parts_of, AreBodiesOf, bodies_answered};
    ghost use Rattle.suite_text.specs.Reading.Ids.{IdsFollow};
    ghost use Rattle.suite_words.specs.Reading.Lines.{indentation_of};
    ghost use Rattle.suite_text.specs.Reading.Nodes.{node_on, is_over_limit_on};
    ghost use Rattle.suite_words.specs.Reading.Nodes.{script_declared};
    ghost use Rattle.suite_words.specs.Reading.Faults.{Fails, Gives};
    ghost use Rattle.suite_text.specs.Reading.Judged.{judged_after, judged_declaration, judged_words, TakesMemory, MayRunOut};
    ghost use Rattle.suite_words.specs.Reading.Judged.{judged_node};
    ghost use Rattle.suite_text.specs.Reading.After.{class_of, with_after_body, with_after_line};
    ghost use Rattle.suite_text.specs.Suites.{is_property_in, with_declared, with_node_words, with_declaration};
    ghost use Rattle.suite_text.specs.Suites.{with_words, with_line, suite_from, suite_parts};
    ghost use Rattle.unique_id.specs.Answers.{texts};

    /// Before the first line, with room for the nodes of so many lines, though for no more than there may be.
    pub(crate) fn new(
        alloc: Global,
        limit: NodeLimit,
        lines: usize,
    ) -> Result<SuiteBuilder, AllocError>
        ensures { IfOk result (λ b. b ≡ no_lines limit) }
    {
        let nodes = lines.min(limit.nodes());
        let tree = TreeBuilder::with_capacity(alloc, nodes)?;
        let scripts = Vec::with_capacity(alloc, nodes)?;
        Ok(SuiteBuilder {
            limit,
            tree,
            path: Vec::new(alloc),
            scripts,
            afters: Vec::new(alloc),
            properties: Params::new(alloc),
        })
    }

    /// The open node that a line of this level hangs below; none at level 0.
    fn above(&self, level: usize) -> Option<Opened>
        requires { level ≤ length self.now.path }
        ensures above { result ≡ above self.now.path level }
        ensures inside { IfSome result (λ opened. (0 < opened.node) × (opened.node < size self.now.tree)) }
        ensures may_take { MayTake self.now.tree (node_of_opened result) }
    {
        if level == 0 {
            None
        } else {
            Some(self.path[level - 1])
        }
    }

    /// The number of the next node.
    fn next_number(&self) -> u16
        ensures number { result ≡ size self.now.tree }
        ensures tree { IsTree self.now.tree }
    {
        self.tree.tree().len() as u16
    }

    /// Which child, from 1, of the node that it hangs below a line of this level declares.
    fn place_on(&self, level: usize) -> u16
        requires { level ≤ length self.now.path }
        ensures { result ≡ place_on self.now level }
    {
        lines_below(self.tree.tree(), node_or_plan(self.above(level))) + 1
    }

    /// The node that a line of this level declares.
    fn node_on(
        &self,
        alloc: Global,
        level: usize,
        declared: Declared<'_>,
    ) -> Result<Node, TreeFault>
        requires { level ≤ length self.now.path }
        ensures ok { IfOk result (λ node. DoesFor node (node_on self.now level (declaration_of declared.entry))) }
        ensures accepted { IfOk result (λ _. is_over_limit_on self.now level (declaration_of declared.entry) ≡ false) }
        ensures refused { IfErr result (λ fault. fault ≢ TreeFault.NoMemory → (fault ≡ TreeFault.OverLimit)
            × (is_over_limit_on self.now level (declaration_of declared.entry) ≡ true)) }
    {
        let parent = self.above(level);
        let number = self.next_number();
        let place = self.place_on(level);
        node_below(alloc, self.tree.tree(), parent, place, number, declared)
    }

    /// The node that a line of this level declares, with its script.
    fn made_on(
        &self,
        alloc: Global,
        level: usize,
        declared: Declared<'_>,
    ) -> Result<NewNode, TreeFault>
        requires { level ≤ length self.now.path }
        ensures node { IfOk result (λ made. DoesFor made.node (node_on self.now level (declaration_of declared.entry))) }
        ensures word { IfOk result (λ made. made.word ≡ declared.entry.word) }
        ensures script { IfOk result (λ made. made.script ≡ script_declared (declaration_of declared.entry)
            (size self.now.tree)) }
        ensures tree { IfOk result (λ _. IsTree self.now.tree) }
        ensures accepted { IfOk result (λ _. is_over_limit_on self.now level (declaration_of declared.entry) ≡ false) }
        ensures refused { IfErr result (λ fault. fault ≢ TreeFault.NoMemory → (fault ≡ TreeFault.OverLimit)
            × (is_over_limit_on self.now level (declaration_of declared.entry) ≡ true)) }
    {
        let script = declared.script(alloc, self.next_number())?;
        let word = declared.word;
        let node = self.node_on(alloc, level, declared)?;
        Ok(NewNode { word, node, script })
    }

    /// Adds the node that a line of this level declares.
    fn add(&mut self, alloc: Global, level: usize, declared: Declared<'_>) -> Result<(), TreeFault>
        requires { level ≤ length self.old.path }
        ensures accepted { OnOk result (refusal_on self.old level (declaration_of declared.entry) ≡ None) }
        ensures added { OnOk result (self.new ≡ grown self.old level (declaration_of declared.entry)) }
        ensures refused { IfErr result (λ fault. fault ≢ TreeFault.NoMemory →
            refusal_on self.old level (declaration_of declared.entry) ≡ Some fault) }
        ensures err { OnErr result (self.new ≡ self.old) }
    {
        let parent = node_or_plan(self.above(level));
        let made = self.made_on(alloc, level, declared)?;
        grow(
            alloc,
            self.limit,
            &mut self.tree,
            &mut self.path,
            &mut self.scripts,
            parent,
            level,
            made,
        )?;
        Ok(())
    }

    /// Adds the node that a line of this level declares; a refusal names the line by this number, from 1.
    fn declare(
        &mut self,
        alloc: Global,
        number: usize,
        level: usize,
        declared: Declared<'_>,
    ) -> Result<(), SuiteFault>
        requires { level ≤ length self.old.path }
        ensures added { OnOk result (with_declared number self.old level (declaration_of declared.entry) ≡ Ok
            self.new) }
        ensures refused { IfErr result (λ fault. Fails fault
            (with_declared number self.old level (declaration_of declared.entry))) }
    {
        match self.add(alloc, level, declared) {
            Ok(()) => Ok(()),
            Err(fault) => Err(SuiteFault::at_line(number, fault)),
        }
    }

    /// Whether a line is a property's: it stands before the first engine.
    fn is_property(&self, line: &str) -> bool
        ensures { result ≡ is_property_in self.now line.now }
    {
        self.levels() == 0 && is_property(line)
    }

    /// The class that an after-body's line of this level belongs to, which has none yet.
    fn class_on(&self, number: usize, level: usize) -> Result<NodeId, SuiteFault>
        requires { level ≤ length self.now.path }
        ensures exact { Gives (λ node. node) result (class_of number self.now.tree (above self.now.path level)) }
        ensures inside { IfOk result (λ node. (0 < node) × (node < size self.now.tree)) }
        ensures few { IfOk result (λ node. node < 16384) }
        ensures real { IfErr result (λ fault. fault ≢ SuiteFault.NoMemory) }
    {
        let Some(opened) = self.above(level) else {
            return Err(SuiteFault::BadLine(number));
        };
        if matches!(opened.word, Word::Class) && self.tree.tree().after(opened.node).is_none() {
            return Ok(opened.node);
        }
        Err(SuiteFault::BadLine(number))
    }

    /// Gives a class its after-body, which ends with this status and text.
    fn set_after(
        &mut self,
        alloc: Global,
        class: NodeId,
        status: Status,
        text: &str,
    ) -> Result<(), TreeFault>
        requires inside { (0 < class) × (class < size self.old.tree) }
        requires few { class < 16384 }
        ensures accepted { OnOk result (after_refusal self.old.tree class (after_body class) ≡ None) }
        ensures set { OnOk result (self.new ≡ with_after_body self.old class (status, text.now)) }
        ensures refused { IfErr result (λ fault. fault ≢ TreeFault.NoMemory → after_refusal self.old.tree class
            (after_body class) ≡ Some fault) }
    {
        give_after(alloc, &mut self.tree, &mut self.afters, class, status, text)?;
        Ok(())
    }

    /// Reads what follows the keyword `after` on a line of this level.
    fn read_after(
        &mut self,
        alloc: Global,
        number: usize,
        level: usize,
        rest: &str,
    ) -> Result<(), SuiteFault>
        requires { level ≤ length self.old.path }
        ensures added { OnOk result (with_after_line number self.old level rest.now ≡ Ok self.new) }
        ensures refused { IfErr result (λ fault. Fails fault (with_after_line number self.old level rest.now)) }
        ensures no_memory { IfErr result (λ fault. fault ≡ SuiteFault.NoMemory →
            judged_after number self.old level rest.now ≡ Ok tt) }
    {
        let class = self.class_on(number, level)?;
        let (status, text) = after_in(number, rest)?;
        match self.set_after(alloc, class, status, text) {
            Ok(()) => Ok(()),
            Err(fault) => Err(SuiteFault::at_line(number, fault)),
        }
    }

    /// The keyword of the node that a line of this level hangs below; none at level 0.
    fn word_on(&self, level: usize) -> Option<Word>
        requires { level ≤ length self.now.path }
        ensures { result ≡ word_on self.now level }
    {
        self.above(level).map(|opened| opened.word)
    }

    /// Reads the line of a node on this level: its keyword, and what follows that.
    fn read_node(
        &mut self,
        alloc: Global,
        number: usize,
        level: usize,
        first: &str,
        rest: &str,
    ) -> Result<(), SuiteFault>
        requires { level ≤ length self.old.path }
        ensures added { OnOk result (with_node_words number self.old level first.now rest.now ≡ Ok self.new) }
        ensures refused { IfErr result (λ fault. Fails fault
            (with_node_words number self.old level first.now rest.now)) }
        ensures no_memory { IfErr result (λ fault. fault ≡ SuiteFault.NoMemory →
            judged_node number (word_on self.old level) first.now rest.now ≡ Ok tt) }
    {
        let declared = declared_as(alloc, number, self.word_on(level), first, rest)?;
        self.declare(alloc, number, level, declared)
    }

    /// Reads the line of an after-body or of a node on this level.
    fn read_declaration(
        &mut self,
        alloc: Global,
        number: usize,
        level: usize,
        line: &str,
    ) -> Result<(), SuiteFault>
        requires { level ≤ length self.old.path }
        ensures added { OnOk result (with_declaration number self.old level line.now ≡ Ok self.new) }
        ensures refused { IfErr result (λ fault. Fails fault (with_declaration number self.old level line.now)) }
        ensures no_memory { IfErr result (λ fault. fault ≡ SuiteFault.NoMemory →
            judged_declaration number self.old level line.now ≡ Ok tt) }
    {
        let (first, rest) = next_word(line);
        if first == LineWord::After.spelling() {
            self.read_after(alloc, number, level, rest)
        } else {
            self.read_node(alloc, number, level, first, rest)
        }
    }

    /// Reads a line that says something, with so many spaces in front: a property's, an after-body's or a node's.
    fn read_words(
        &mut self,
        alloc: Global,
        number: usize,
        indentation: usize,
        line: &str,
    ) -> Result<(), SuiteFault>
        requires { indentation ≡ indentation_of line.now }
        ensures added { OnOk result (with_words number self.old line.now ≡ Ok self.new) }
        ensures refused { IfErr result (λ fault. Fails fault (with_words number self.old line.now)) }
        ensures no_memory { IfErr result (λ fault. fault ≡ SuiteFault.NoMemory →
            judged_words number self.old line.now ≡ Ok tt) }
    {
        let level = level_at(number, self.levels(), indentation)?;
        if self.is_property(line) {
            return put_property(alloc, &mut self.properties, number, line);
        }
        self.read_declaration(alloc, number, level, line)
    }

    /// The number of levels on which a line may stand next.
    fn levels(&self) -> usize
        ensures { result ≡ length self.now.path }
    {
        self.path.len()
    }

    /// Reads the line of this number.
    fn read_line(&mut self, alloc: Global, number: usize, line: &str) -> Result<(), SuiteFault>
        ensures added { OnOk result (with_line number self.old line.now ≡ Ok self.new) }
        ensures refused { IfErr result (λ fault. Fails fault (with_line number self.old line.now)) }
        // Memory is taken only if nothing is at fault that is judged before.
        ensures no_memory { IfErr result (λ fault. fault ≡ SuiteFault.NoMemory → TakesMemory number self.old line.now) }
    {
        let indentation = indentation(line);
        if says_nothing(indentation, line) {
            return Ok(());
        }
        self.read_words(alloc, number, indentation, line)
    }

    /// Reads all lines, which are counted from 1.
    pub(crate) fn read_lines(&mut self, alloc: Global, lines: &[&str]) -> Result<(), SuiteFault>
        ensures added { OnOk result (suite_from 1 self.old (texts lines.now) ≡ Ok self.new) }
        ensures refused { IfErr result (λ fault. Fails fault (suite_from 1 self.old (texts lines.now))) }
        // Want of memory comes behind lines that are read.
        ensures no_memory { IfErr result (λ fault. fault ≡ SuiteFault.NoMemory →
            MayRunOut 1 self.old (texts lines.now)) }
    {
        for (index, line) in lines.iter().enumerate() {
            self.read_line(alloc, index + 1, line)?;
        }
        Ok(())
    }

    /// What the lines have made.
    pub(crate) fn finish(self, alloc: Global) -> Result<Suite, AllocError>
        ensures parts { IfOk result (λ suite. suite_parts suite ≡ parts_of self) }
        ensures tree { IfOk result (λ suite. IsTree suite.tree) }
        ensures few { IfOk result (λ suite. size suite.tree ≤ self.limit + 1) }
        ensures ids { IfOk result (λ suite. IdsFollow suite.tree) }
        ensures answered { IfOk result (λ suite. AreBodiesOf suite.tree.nodes (bodies_answered suite.scripts.items)) }
    {
        let SuiteBuilder {
            limit: _,
            tree,
            path: _,
            scripts,
            afters,
            properties,
        } = self;
        let tree = tree.finish();
        let suite = suite_with(alloc, tree, scripts, afters, properties)?;
        Ok(suite)
    }
}
