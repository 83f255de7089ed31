mod code;
mod playing;
mod rows;
