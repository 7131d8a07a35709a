//! What is printed of a run.

ghost use Rattle.std.specs.Prelude.{◌≡◌, Some, map};
ghost use Rattle.std.specs.List.{Contains};
ghost use Rattle.unique_id.specs.Answers.{texts};
ghost use Rattle.launch_options.specs.DetailsTexts.{all_details, details_text, details_named, prints_live};
ghost use Rattle.launch_options.specs.declared.details.Details.{Details};

const NONE: &str = "none";

const SUMMARY: &str = "summary";

const TREE: &str = "tree";

const TESTFEED: &str = "testfeed";

const JSON: &str = "json";

const XML: &str = "xml";

const LIST: &str = "list";

const PLAN: &str = "plan";

/// What is printed of a run.
#[derive(Clone, Copy)]
pub enum Details {
    None,
    /// How many containers and tests there were, and what became of them.
    Summary,
    /// The tree of what ran, and then the summary.
    Tree,
    /// A line for each event.
    Testfeed,
    /// An object of JSON for each event, each on a line of its own.
    Json,
    /// The report that build servers read: a case for each test, in XML.
    Xml,
    /// The tests and factories that would be run; nothing is run.
    List,
    /// The nodes as they would be run, as JSON: an object for each; nothing is run.
    Plan,
}

impl Details {
    /// All of them.
    pub fn all() -> [Details; 8]
        ensures exact { result ≡ all_details }
        ensures every { (details : Details) → Contains result details }
    {
        [
            Details::None,
            Details::Summary,
            Details::Tree,
            Details::Testfeed,
            Details::Json,
            Details::Xml,
            Details::List,
            Details::Plan,
        ]
    }

    /// The name by which `--details` asks for them.
    pub fn name(self) -> &'static str
        ensures text { result.now ≡ details_text self }
        ensures read { details_named (Some result.now) ≡ Some self }
    {
        match self {
            Details::None => NONE,
            Details::Summary => SUMMARY,
            Details::Tree => TREE,
            Details::Testfeed => TESTFEED,
            Details::Json => JSON,
            Details::Xml => XML,
            Details::List => LIST,
            Details::Plan => PLAN,
        }
    }

    /// All names.
    pub fn names() -> [&'static str; 8]
        ensures { texts result ≡ map details_text all_details }
    {
        let [none, summary, tree, testfeed, json, xml, list, plan] = Details::all();
        [
            none.name(),
            summary.name(),
            tree.name(),
            testfeed.name(),
            json.name(),
            xml.name(),
            list.name(),
            plan.name(),
        ]
    }

    /// Whether they are lines of events, each of which is printed when its event is told.
    pub fn prints_live(self) -> bool
        ensures { result ≡ prints_live self }
    {
        match self {
            Details::Testfeed | Details::Json => true,
            Details::None
            | Details::Summary
            | Details::Tree
            | Details::Xml
            | Details::List
            | Details::Plan => false,
        }
    }

    /// The details of this name.
    pub fn named(name: &str) -> Option<Details>
        ensures { result ≡ details_named (Some name.now) }
    {
        match name {
            NONE => Some(Details::None),
            SUMMARY => Some(Details::Summary),
            TREE => Some(Details::Tree),
            TESTFEED => Some(Details::Testfeed),
            JSON => Some(Details::Json),
            XML => Some(Details::Xml),
            LIST => Some(Details::List),
            PLAN => Some(Details::Plan),
            _ => None,
        }
    }
}
