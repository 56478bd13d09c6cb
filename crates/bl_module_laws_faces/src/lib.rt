//! Laws of the faces of good files. Lemmas only. The face of a file that is good behind other faces stands behind them, and declares what is known at
//! the end of the file's text (`FaceAdds`). What is printed of it is read as it (`GoodFacesAreRead`).
#![tactic(auto)]

pub mod faces;
