mod copy;
mod derive;
mod found;
mod made;
mod phrase;
mod read;
mod types;
