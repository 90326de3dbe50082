//! The script of a page.

/// The script: plain JavaScript, which reads the data and the picture of its page and nothing else.
pub(crate) const SCRIPT: &str = r##""use strict";

const data = JSON.parse(document.querySelector("#data").textContent);
// So many boxes are drawn in place of coarser ones, and so many nanoseconds fill the width at least: more where numbers are that coarse.
const MOST_BOXES = 1200, SHORTEST = Math.max(20, data.to_ns / 2 ** 44);
const picture = document.querySelector("#picture");
const svg = picture.querySelector("svg");
// The edges of the lanes, how many steps of an axis have room, and the number of fills, as the picture has them.
const LEFT = 90, RIGHT = svg.viewBox.baseVal.width - 20, WIDTH = RIGHT - LEFT;
const STEPS = Math.min(Math.max(Math.floor(WIDTH / 100), 3), 100), FILLS = 28;
const rows = [...document.querySelectorAll("#stretches tbody tr")];
const whole = { from: data.from_ns, to: data.to_ns };
let view = whole;
let wanted = null;
let told = "";

const placeOf = (time) => LEFT + (WIDTH * (time - view.from)) / (view.to - view.from);
const timeOf = (place) => view.from + ((view.to - view.from) * (place - LEFT)) / WIDTH;
const within = (place) => Math.min(Math.max(place, LEFT), RIGHT);
const isShown = (begin, end) => (begin < end ? begin < view.to && view.from < end : view.from <= begin && begin <= view.to);
const numberOf = (part, name) => Number(part.getAttribute(name));
const titleOf = (part) => part.querySelector("title")?.textContent ?? "";
const keyOf = (cpu, begin) => `${cpu} ${begin}`;
const isSeen = (part) => !part.matches("[hidden], .behind");
const show = (part, isVisible) => part.toggleAttribute("hidden", !isVisible);

function make(tag, values, words = "") {
  const part = document.createElementNS(svg.namespaceURI, tag);
  for (const [name, value] of Object.entries(values)) part.setAttribute(name, value);
  part.textContent = words;
  return part;
}

// The stretches, by the CPU and the time at which they begin; and what each box shows.
const stretches = new Map(data.stretches.map((stretch) => [keyOf(stretch.cpu, stretch.begin_ns), stretch]));
const shownBy = new Map();
// What moves each part of the picture to the time that is seen.
const moves = [];

// A box: a stretch, several of them, a wait or a sleep.
function readBox(box) {
  const title = titleOf(box);
  const [begin, end] = title.match(/from (\d+) ns to (\d+) ns$/)?.slice(1).map(Number)
    ?? [timeOf(numberOf(box, "x")), timeOf(numberOf(box, "x") + numberOf(box, "width"))];
  const cpu = Number(title.match(/ on CPU (\d+)/)?.[1]);
  const stretch = stretches.get(keyOf(cpu, begin));
  const shown = { cpu, begin, end, isCoarse: box.classList.contains("m"), stretch };
  shown.isTold = data.stretches.some((one) => one.cpu === cpu && begin <= one.begin_ns && one.begin_ns < end);
  if (stretch || shown.isCoarse) shownBy.set(box, shown);
  moves.push(() => placeBox(box, begin, end));
  const number = title.match(/runs on CPU (\d+)/) ?? title.match(/^task (\d+) on/);
  if (number) readNumber(box, number[1], title.includes("runs") ? 22 : 6 + 8 * number[1].length);
}

function placeBox(box, begin, end) {
  show(box, isShown(begin, end));
  box.setAttribute("x", within(placeOf(begin)));
  box.setAttribute("width", within(placeOf(end)) - within(placeOf(begin)));
}

// The number in a box stands in its middle, where it has room.
function readNumber(box, number, room) {
  let text = box.nextElementSibling;
  if (!text?.matches("text.n")) {
    text = make("text", { class: "n", y: numberOf(box, "y") + 17 }, number);
    box.after(text);
  }
  moves.push(() => {
    show(text, !box.hasAttribute("hidden") && numberOf(box, "width") >= room);
    text.setAttribute("x", numberOf(box, "x") + numberOf(box, "width") / 2);
  });
}

function readMark(mark) {
  const time = Number(titleOf(mark).match(/, at (\d+) ns$/)[1]);
  moves.push(() => show(mark, isShown(time, time)), () => mark.setAttribute("x", placeOf(time)));
}

// Arrows that end at one place, one after the other, begin beside one another: that place, and how many came before.
let tip = NaN, count = 0;

// An arrow or a curve: points, each with its time.
function readPath(path) {
  const places = path.getAttribute("d").split(/(?=[ML])/).map((point) => [point[0], ...point.slice(1).split(" ").map(Number)]);
  const points = places.map(([letter, place, height]) => [letter, timeOf(place), height]);
  const end = titleOf(path).match(/, at (\d+) ns$/)?.slice(1).map(Number);
  if (end) [tip, count] = [places.at(-1)[1], places.at(-1)[1] === tip ? count + 1 : 0];
  const beside = end ? 5 * (count % 4) : 0;
  if (end) [points[0][1], points.at(-1)[1]] = [Math.min(timeOf(places[0][1] - beside), ...end), ...end];
  path.setAttribute("clip-path", path.matches(".k") ? "url(#lanes)" : "url(#marks)");
  moves.push(() => {
    show(path, isShown(points[0][1], points.at(-1)[1]));
    path.setAttribute("d", points.map(([letter, time, height], at) => `${letter}${placeOf(time) + (at ? 0 : beside)} ${height}`).join(""));
  });
}

// The axes: lines from a top to a bottom, with their times below them.
function readAxes() {
  const lines = [...svg.querySelectorAll("path.g")];
  const axes = [...new Set(lines.map((line) => line.getAttribute("d").match(/ (\S+V\S+)/)[1]))].map((axis) => axis.split("V").map(Number));
  const layer = make("g", {});
  lines[0]?.before(layer);
  for (const part of [...lines, ...svg.querySelectorAll("text.a")]) part.remove();
  moves.push(() => layer.replaceChildren(...axes.flatMap(([top, bottom]) => axisOf(top, bottom))));
}

function axisOf(top, bottom) {
  const step = stepOf(view.to - view.from), first = Math.ceil(view.from / step);
  const [unit, length] = [["s", 1e9], ["ms", 1e6], ["µs", 1e3], ["ns", 1]].find(([, ns]) => step >= ns);
  const times = [...Array(STEPS + 2).keys()].map((number) => (first + number) * step);
  return times.filter((time) => time <= view.to).flatMap((time) => {
    const place = placeOf(time), isLast = place > RIGHT - 30;
    const label = { class: isLast ? "a r" : "a", x: isLast ? place + 18 : place, y: bottom + 13 };
    return [make("path", { class: "g", d: `M${place} ${top}V${bottom}` }), make("text", label, `${Math.round(time / length)} ${unit}`)];
  });
}

// The shortest step of 1, 2 or 5 with zeros behind it of which the time has few enough.
function stepOf(length) {
  for (let ten = 1; ; ten *= 10) for (const factor of [1, 2, 5]) if (ten * factor * STEPS >= length) return ten * factor;
}

// Where few enough are seen, the stretches of coarse boxes are drawn one by one over them.
const finer = make("g", {});
function drawFiner() {
  for (const box of finer.children) shownBy.delete(box);
  const coarse = [...shownBy].filter(([box, shown]) => shown.isCoarse && !box.hasAttribute("hidden"));
  const tops = new Map(coarse.map(([box, shown]) => [shown.cpu, numberOf(box, "y")]));
  const single = new Set([...shownBy.values()].map((shown) => !shown.isCoarse && shown.stretch));
  const seen = data.stretches.filter((stretch) => isShown(stretch.begin_ns, stretch.end_ns));
  const isFine = view !== whole && seen.length <= MOST_BOXES;
  finer.replaceChildren();
  for (const [box, shown] of coarse) box.classList.toggle("behind", isFine && shown.isTold);
  for (const stretch of isFine ? seen : []) {
    if (!tops.has(stretch.cpu) || single.has(stretch)) continue;
    const { cpu, task, begin_ns: begin, end_ns: end } = stretch;
    const box = make("rect", { class: `b t${task % FILLS}`, y: tops.get(cpu), height: 24, tabindex: -1 });
    box.append(make("title", {}, `task ${task} on CPU ${cpu}, from ${begin} ns to ${end} ns`));
    placeBox(box, begin, end);
    shownBy.set(box, { cpu, begin, end, isCoarse: false, stretch });
    finer.append(box);
    const x = numberOf(box, "x"), width = numberOf(box, "width");
    if (width >= 6 + 8 * `${task}`.length) finer.append(make("text", { class: "n", x: x + width / 2, y: tops.get(cpu) + 17 }, task));
  }
}

function look(from, to) {
  const length = Math.min(Math.max(to - from, SHORTEST), whole.to - whole.from);
  const begin = Math.min(Math.max(from, whole.from), whole.to - length);
  const focused = svg.contains(document.activeElement) ? document.activeElement : null;
  const stretch = stretchOf(focused);
  view = length === whole.to - whole.from ? whole : { from: begin, to: begin + length };
  for (const move of moves) move();
  drawFiner();
  dim();
  if (focused && !(focused.isConnected && isSeen(focused))) (boxOf(stretch) ?? picture).focus({ preventScroll: true });
}

// The box that is seen of a stretch, its own or one of several.
function boxOf(stretch) {
  const isOf = ({ cpu, begin, end }) => cpu === stretch?.cpu && begin <= stretch.begin_ns && stretch.begin_ns < end;
  return [...shownBy].find(([box, shown]) => isSeen(box) && isOf(shown))?.[0];
}

// Makes the time that is seen so many times as long, and keeps a place where it is.
function zoom(factor, place = LEFT + WIDTH / 2) {
  const time = timeOf(within(place));
  if (factor < 1) factor = Math.min(Math.max(factor, SHORTEST / (view.to - view.from)), 1);
  look(time - (time - view.from) * factor, time + (view.to - time) * factor);
}

// Moves on by a part of the time that is seen.
function pan(part) {
  const by = part * (view.to - view.from);
  if (view !== whole) look(view.from + by, view.to + by);
}

const rowOf = (stretch) => rows[data.stretches.indexOf(stretch)];
const element = (tag, textContent) => Object.assign(document.createElement(tag), { textContent });

// Tells of a stretch, and of what else has a title that.
function tell(stretch, title) {
  const now = stretch ?? (title || "nothing is known");
  if (now === told) return;
  rowOf(told)?.classList.remove("told");
  rowOf(now)?.classList.add("told");
  told = now;
  const facts = Object.entries(stretch ? factsOf(stretch) : { here: now });
  document.querySelector("#told").replaceChildren(...facts.flatMap(([name, words]) => [element("dt", name), element("dd", words)]));
}

function factsOf({ cpu, task, begin_ns: begin, end_ns: end, ...more }) {
  return {
    task: `task ${task} on CPU ${cpu}`,
    time: `from ${begin} ns to ${end} ns: ${end - begin} ns`,
    "last deed": `${more.deed}, of ${more.ticks} tick${more.ticks === 1 ? "" : "s"}`, answer: more.answer,
    "lag before": `${more.lag_before ?? "-"} ns of virtual time`, "lag after": `${more.lag_after ?? "-"} ns of virtual time`,
    woken: more.woken_from === undefined ? "not since it ran last" : `from CPU ${more.woken_from}, ${more.delay_ns} ns before`,
    waited: `${more.waited_ns} ns`, "ended by": more.why,
  };
}

// The stretch that a box shows: of several the one at a place, and without a place the first.
function stretchOf(box, place) {
  const shown = shownBy.get(box), time = place === undefined ? shown?.begin : timeOf(place);
  if (!shown?.isCoarse) return shown?.stretch;
  return data.stretches.find((one) => one.cpu === shown.cpu && one.begin_ns <= time && time < one.end_ns);
}

const placeOfPointer = (event) => new DOMPoint(event.clientX, event.clientY).matrixTransform(svg.getScreenCTM().inverse()).x;

function tellAt(event) {
  const part = document.elementFromPoint(event.clientX, event.clientY);
  if (svg.contains(part)) tell(stretchOf(part, placeOfPointer(event)), part === svg ? "" : titleOf(part));
}

// Boxes and rows of other tasks than the one that is sought are dimmed, or left out.
function dim() {
  for (const box of svg.querySelectorAll("rect")) {
    const task = titleOf(box).match(/^task (\d+) /)?.[1];
    box.classList.toggle("dim", wanted !== null && task !== undefined && Number(task) !== wanted);
  }
}

function seek(words) {
  const number = words.trim().match(/^(?:task\s*)?(\d+)$/i)?.[1];
  wanted = Number(number) < data.tasks ? Number(number) : null;
  for (const [place, row] of rows.entries()) row.hidden = wanted !== null && data.stretches[place].task !== wanted;
  const seen = rows.filter((row) => !row.hidden);
  for (const row of rows) row.tabIndex = row === seen[0] ? 0 : -1;
  document.querySelector("#found").textContent = wanted !== null ? `${seen.length} listed of task ${wanted}`
    : words.trim() ? `no task: 0 to ${data.tasks - 1} are known` : "";
  dim();
}

// Moves the focus to the next one that isn't hidden.
function step(parts, by) {
  const seen = parts.filter(isSeen);
  const at = seen.indexOf(document.activeElement);
  seen[at < 0 ? 0 : Math.min(Math.max(at + by, 0), seen.length - 1)]?.focus();
}

const KEYS = {
  "+": () => zoom(0.5), "=": () => zoom(0.5), "-": () => zoom(2), 0: () => look(whole.from, whole.to),
  ArrowLeft: () => pan(-0.25), ArrowRight: () => pan(0.25),
  ArrowUp: () => step([...shownBy.keys()], -1), ArrowDown: () => step([...shownBy.keys()], 1),
};

function listen() {
  picture.addEventListener("keydown", (event) => {
    if (event.ctrlKey || event.altKey || event.metaKey || !Object.hasOwn(KEYS, event.key)) return;
    event.preventDefault();
    KEYS[event.key]();
  });
  svg.addEventListener("wheel", (event) => {
    if (event.ctrlKey || !event.deltaX && !event.deltaY) return;
    const isPan = event.shiftKey || Math.abs(event.deltaX) > Math.abs(event.deltaY);
    if (!isPan && event.deltaY > 0 && view === whole) return;
    event.preventDefault();
    if (isPan) pan(Math.sign(event.deltaX || event.deltaY) * 0.1);
    else zoom(event.deltaY < 0 ? 0.8 : 1.25, placeOfPointer(event));
    tellAt(event);
  }, { passive: false });
  svg.addEventListener("pointermove", tellAt);
  svg.addEventListener("focusin", (event) => tell(stretchOf(event.target), titleOf(event.target)));
  const table = document.querySelector("#stretches");
  const tellRow = (event) => tell(data.stretches[rows.indexOf(event.target.closest("tr"))] ?? told);
  for (const name of ["pointerover", "focusin"]) table.addEventListener(name, tellRow);
  table.addEventListener("keydown", (event) => {
    if (event.key !== "ArrowUp" && event.key !== "ArrowDown") return;
    event.preventDefault();
    step(rows, event.key === "ArrowUp" ? -1 : 1);
  });
  document.querySelector("#search").addEventListener("submit", (event) => event.preventDefault());
  document.querySelector("#search").addEventListener("input", (event) => seek(event.target.value));
}

function begin() {
  for (const [id, beside] of [["lanes", 0], ["marks", 8]]) {
    const clip = make("clipPath", { id });
    clip.append(make("rect", { x: LEFT - beside, y: 0, width: WIDTH + 2 * beside, height: numberOf(svg, "height") }));
    svg.querySelector("defs").append(clip);
  }
  if (whole.from < whole.to) {
    for (const box of svg.querySelectorAll(":scope > rect")) {
      if (titleOf(box) || box.matches(".u") && numberOf(box, "x") >= LEFT && numberOf(box, "height") > 24) readBox(box);
    }
    for (const mark of svg.querySelectorAll(":scope > use")) if (titleOf(mark)) readMark(mark);
    for (const path of svg.querySelectorAll("path.k, path.p, path.q")) if (titleOf(path)) readPath(path);
    readAxes();
    for (const box of shownBy.keys()) box.setAttribute("tabindex", -1);
    // below arrows and marks
    [...shownBy.keys()].at(-1)?.after(finer);
    look(whole.from, whole.to);
  }
  seek("");
  listen();
}

begin();
"##;
