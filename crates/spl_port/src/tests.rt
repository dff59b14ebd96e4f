mod pages;
mod streams;
