//! Laws on definitions alone: that each driver call of a command is allowed in the driver's state, that the tables of the service and of the
//! driver agree afterwards, and that the records of a journal are those of the run. There is no code here. The contracts of the crates above
//! state these laws for what their code did, and their proofs quote them.
#![tactic(auto)]
