//! The types of the elements of commands and answers, in this project's profile of the repo protocol.

pub(crate) const REPO_COMMAND_PARAMETER: u32 = 201;

pub(crate) const START_BLOCK_ID: u32 = 204;

pub(crate) const END_BLOCK_ID: u32 = 205;

pub(crate) const PROCESS_ID: u32 = 206;

pub(crate) const REPO_COMMAND_RESPONSE: u32 = 207;

pub(crate) const STATUS_CODE: u32 = 208;

pub(crate) const INSERT_NUM: u32 = 209;

pub(crate) const DELETE_NUM: u32 = 210;
