//! The forms of a script's lines, as a person may read them.

/// A word that begins lines, and their forms.
#[derive(Clone, Copy)]
pub(crate) struct LineForm {
    pub(crate) word: &'static str,
    pub(crate) form: &'static str,
}

/// What an object may be.
pub(crate) const KINDS: [&str; 3] = ["register", "queue", "counter"];

/// What a call may ask of an object.
pub(crate) const OPERATIONS: [&str; 7] = ["read", "write", "swap", "size", "put", "take", "add"];

/// The words by which lines begin.
pub(crate) const FORMS: [LineForm; 22] = [
    LineForm {
        word: "nodes",
        form: "nodes N",
    },
    LineForm {
        word: "object",
        form: "object NAME NODE register V, or queue, or counter V",
    },
    LineForm {
        word: "body",
        form: "body NAME",
    },
    LineForm {
        word: "child",
        form: "child TRIES NODE BODY",
    },
    LineForm {
        word: "end",
        form: "end",
    },
    LineForm {
        word: "begin",
        form: "begin A NODE",
    },
    LineForm {
        word: "start",
        form: "start A NODE BODY",
    },
    LineForm {
        word: "ask",
        form: "ask A B NODE",
    },
    LineForm {
        word: "call",
        form: "call A OBJECT OP, or in a body call TRIES OBJECT OP",
    },
    LineForm {
        word: "commit",
        form: "commit A V, or in a body commit E",
    },
    LineForm {
        word: "abort",
        form: "abort A, or in a body abort",
    },
    LineForm {
        word: "giveup",
        form: "giveup A B",
    },
    LineForm {
        word: "go",
        form: "go A",
    },
    LineForm {
        word: "deliver",
        form: "deliver K",
    },
    LineForm {
        word: "cut",
        form: "cut K BYTES",
    },
    LineForm {
        word: "lose",
        form: "lose K",
    },
    LineForm {
        word: "restart",
        form: "restart NODE",
    },
    LineForm {
        word: "drain",
        form: "drain",
    },
    LineForm {
        word: "play",
        form: "play",
    },
    LineForm {
        word: "tell",
        form: "tell NODE NODE",
    },
    LineForm {
        word: "query",
        form: "query NODE A",
    },
    LineForm {
        word: "stop",
        form: "stop NODE CALLS",
    },
];
