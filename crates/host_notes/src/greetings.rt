// What a person at a terminal is told before a run.

/// What a person who types is told before a run that reads commands and questions.
pub const COMMANDS_ARE_READ: &str =
    "privilege: type commands and questions, a line each, and end them with control-d";

/// The same before a run that reads rules.
pub const RULES_ARE_READ: &str = "privilege: type rules, a line each, and end them with control-d";
