//! The forms of output that other programs have, each with the form that is meant here.

use suite_messages::{ForeignWords, meant_by};

/// What a run may be printed as, by the words of other programs.
static FORM_WORDS: [ForeignWords<'static>; 6] = [
    ForeignWords {
        words: &[
            "junit",
            "xunit",
            "junitxml",
            "junit-xml",
            "junit_xml",
            "surefire",
            "jenkins",
        ],
        meant: "xml is JUnit's",
    },
    ForeignWords {
        words: &["jsonl", "ndjson", "json-stream", "structured"],
        meant: "json has an object for each event",
    },
    ForeignWords {
        words: &[
            "verbose",
            "progress",
            "dot",
            "dots",
            "events",
            "feed",
            "live",
            "log",
            "tap",
            "teamcity",
            "documentation",
        ],
        meant: "testfeed has a line for each event",
    },
    ForeignWords {
        words: &[
            "pretty", "spec", "human", "console", "text", "plain", "full", "long", "default",
            "nested",
        ],
        meant: "tree has a line for each node",
    },
    ForeignWords {
        words: &[
            "short", "brief", "terse", "min", "minimal", "totals", "count",
        ],
        meant: "summary has the numbers alone",
    },
    ForeignWords {
        words: &["quiet", "silent", "off", "null", "no", "false"],
        meant: "none prints nothing",
    },
];

/// Which form is meant by a word of other programs.
pub(crate) fn meant_by_form(word: &str) -> Option<&'static str> {
    meant_by(FORM_WORDS.as_slice(), word)
}
