mod closures;
mod code;
mod joining;
mod stealing;
