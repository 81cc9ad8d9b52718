//! What several tests make.

use fy_base::Place;

pub const AT: Place = Place { line: 1, col: 1 };
