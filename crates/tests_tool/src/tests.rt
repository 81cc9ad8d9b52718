mod faults;
mod made;
mod torn;
