mod made;
mod programs;
