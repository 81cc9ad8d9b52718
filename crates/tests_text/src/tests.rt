mod expand;
mod grammar;
mod lexer;
mod made;
mod show;
mod syntax;
mod units;
