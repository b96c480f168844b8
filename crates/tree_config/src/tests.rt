// Texts and the plans or faults that docs/CONFIGURATION.md gives them.
mod fields;
mod plans;
mod texts;
mod trees;
