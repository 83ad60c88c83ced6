// The options of each command.

/// The key of a command's operand, its file or number.
pub(crate) const OPERAND: &str = "operand";

/// An option's name without its hyphens, and whether the command needs it. Each option takes one
/// value.
#[derive(Clone, Copy)]
pub(crate) struct OptionRule {
    pub name: &'static str,
    pub required: bool,
}

pub(crate) static BUILD: [OptionRule; 2] = [
    OptionRule {
        name: "proof",
        required: false,
    },
    OptionRule {
        name: "out",
        required: true,
    },
];

pub(crate) static CHECK: [OptionRule; 1] = [OptionRule {
    name: "proof",
    required: false,
}];

pub(crate) static BOUND: [OptionRule; 2] = [
    OptionRule {
        name: "proof",
        required: false,
    },
    OptionRule {
        name: "args",
        required: false,
    },
];

pub(crate) static CALLS: [OptionRule; 2] = [
    OptionRule {
        name: "proof",
        required: true,
    },
    OptionRule {
        name: "args",
        required: false,
    },
];

pub(crate) static DERIVE: [OptionRule; 1] = [OptionRule {
    name: "out",
    required: true,
}];

pub(crate) static OUTLINE: [OptionRule; 0] = [];

pub(crate) static RUN: [OptionRule; 4] = [
    OptionRule {
        name: "stack",
        required: true,
    },
    OptionRule {
        name: "args",
        required: false,
    },
    OptionRule {
        name: "input",
        required: false,
    },
    OptionRule {
        name: "steps",
        required: false,
    },
];

pub(crate) static EXEC: [OptionRule; 4] = [
    OptionRule {
        name: "proof",
        required: false,
    },
    OptionRule {
        name: "args",
        required: false,
    },
    OptionRule {
        name: "input",
        required: false,
    },
    OptionRule {
        name: "steps",
        required: false,
    },
];

pub(crate) static SAMPLE: [OptionRule; 1] = [OptionRule {
    name: "out",
    required: false,
}];

pub(crate) static ELF: [OptionRule; 1] = [OptionRule {
    name: "out",
    required: true,
}];

pub(crate) static UNELF: [OptionRule; 1] = [OptionRule {
    name: "out",
    required: true,
}];
