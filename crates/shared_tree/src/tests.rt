// Calls on shared trees: by two callers, one of whom is held in a read, by eight threads, and of each kind, one after another.
mod asking;
mod callers;
mod crowd;
mod gate;
mod held;
mod kinds;
mod plans;
mod sending;
mod taken;
