// The beginning and the end of a page, the same of every dump. The beginning allows the script at the end by its hash,
// which `checks/run page` compares.

const HEAD: &str = "<!DOCTYPE html>
<html lang=\"en\"><head><meta charset=\"utf-8\"><title>DER</title>
<meta name=\"viewport\" content=\"width=device-width, initial-scale=1\">
<meta http-equiv=\"Content-Security-Policy\" content=\"default-src 'none'; style-src 'unsafe-inline';
 script-src 'sha256-SjdHepkDwr9LD925nfPYb7W2eZosz0r2zDCAb2Lfss0='\">
<style>
:root { color-scheme: light dark; --paper: #fff; --ink: #1c2024; --faint: #d9dde2; --pointed: #eef1f4;
 --header: #ffd479; --contents: #b9dcff; --found: #d3f0b4; --fault: #b3261e; --bar: 0px }
@media (prefers-color-scheme: dark) { :root { --paper: #16191d; --ink: #e3e6ea; --faint: #3a4048; --pointed: #23282e;
 --header: #7a5400; --contents: #12507f; --found: #3d5c1d; --fault: #ff8a80 } }
body { margin: 0; background: var(--paper); color: var(--ink); font: 14px/1.5 ui-monospace, monospace }
section { display: flex; gap: 1rem; align-items: flex-start; border-bottom: 1px solid var(--faint) }
.tree { flex: 1 1 0; min-width: 0; overflow-x: auto; padding: 1rem }
.tree p, .tree summary { box-sizing: border-box; margin: 0; white-space: pre; width: max-content; min-width: 100% }
.tree p { padding-left: 1.2em }
.tree summary { list-style: none; cursor: pointer }
.tree summary::before { content: '\\25B8'; display: inline-block; width: 1.2em; text-indent: 0; color: GrayText }
.tree details[open] > summary::before { content: '\\25BE' }
.tree summary::-webkit-details-marker { display: none }
.tree .pointed { background: var(--pointed) }
.tree .chosen { box-shadow: inset 3px 0 var(--contents) }
.tree .fault { color: var(--fault); font-weight: bold }
.octets { flex: none; position: sticky; top: var(--bar); box-sizing: border-box; margin: 0; padding: 1rem;
 width: calc(48ch + 4rem); max-height: calc(100vh - var(--bar)); overflow-y: auto; white-space: pre-wrap;
 scrollbar-gutter: stable; border-left: 1px solid var(--faint); font: inherit }
.octets:empty { display: none }
/* what the script makes: the bar, lines whose second row begins below the first, and columns of bytes */
.bar { position: sticky; top: 0; z-index: 1; display: flex; flex-wrap: wrap; align-items: center; gap: .3rem .5rem;
 padding: .3rem 1rem; background: var(--paper); border-bottom: 1px solid var(--faint) }
.bar input, .bar button { font: inherit; padding: 0 .6ch }
.bar input { width: 24ch }
.bar output:empty { display: none }
.bar .where { margin-left: auto; color: GrayText }
.ready .tree { overflow-x: clip }
.ready .tree p, .ready .tree summary { --hang: calc(20ch + 2ch * var(--depth, -10)); white-space: pre-wrap;
 overflow-wrap: anywhere; width: auto; min-width: 0; padding-left: calc(var(--hang) + 1.2em);
 text-indent: calc(0ch - var(--hang)); scroll-margin: calc(var(--bar) + 2rem) 0 3rem }
.ready .tree summary { text-indent: calc(-1.2em - var(--hang)) }
.ready .octets { display: flex; align-items: flex-start; gap: 2ch; width: auto; white-space: pre;
 overflow-x: hidden; cursor: pointer }
.ready .octets:empty { display: none }
.octets .offsets { color: GrayText; user-select: none }
/* of long lists, items that are not in sight are not laid out */
.tree details:nth-child(n + 100) { content-visibility: auto; contain-intrinsic-size: auto 8lh }
.tree p:nth-child(n + 100) { content-visibility: auto; contain-intrinsic-size: auto 1lh }
/* on a phone the bytes stand below, and lines are broken */
@media (max-width: 60rem) {
 section { display: block }
 .tree { padding: .5rem }
 .tree p, .tree summary { white-space: pre-wrap; overflow-wrap: anywhere; width: auto; min-width: 0 }
 .octets, .ready .octets { position: sticky; top: auto; bottom: 0; width: auto; max-height: 30vh; padding: .5rem;
  background: var(--paper); border-left: none; border-top: 1px solid var(--faint) }
 .ready .tree p, .ready .tree summary { --hang: calc(7ch + 1ch * var(--depth, -7)); scroll-margin-bottom: 35vh }
 .ready .tree .columns { display: none }
 .ready .tree .said { margin-left: calc(1ch * var(--depth)) }
 .bar { padding: .3rem .5rem }
 .bar input { flex: 1 1 8ch; min-width: 0 }
 .bar .where { flex-basis: 100%; min-height: 1lh }
}
@media (max-width: 30rem) { body { font-size: 12px } }
@media print { .bar { display: none } .octets { position: static; max-height: none } }
::highlight(header) { background: var(--header) }
::highlight(contents) { background: var(--contents) }
::highlight(found) { background: var(--found) }
</style></head><body>
";

const FOOT: &str = "<script>
// makes a viewer of the lines and the bytes: it sets bytes in columns, marks the bytes of a line and the line of a
// byte, finds text, and goes to the line that the link names
(() => {
  const make = (name, at, className, text) => {
    const made = document.createElement(name);
    if (className) made.className = className;
    if (text) made.textContent = text;
    at.append(made);
    return made;
  };
  const hex = number => number.toString(16);
  const body = document.body, lines = [], ofElement = new Map(), documents = [];

  // a line: its element, the line that it stands in, and the bytes from its header on, if it has some
  const readLine = (element, doc) => {
    const fold = element.tagName === 'SUMMARY' && element.parentNode;
    const line = { element, fold, doc, parent: null, at: lines.length };
    lines.push(line);
    ofElement.set(element, line);
    line.said = element.firstChild;
    if (!element.dataset.offset) return line;
    line.from = Number(element.dataset.offset);
    line.middle = line.from + Number(element.dataset.header);
    const size = element.dataset.contents;
    line.to = size === 'inf' ? null : line.middle + Number(size);
    // the offset, the two sizes with the spaces for the depth, and what the line says
    const parts = /^(>? *[0-9]+)( +[0-9]+ +(?:[0-9]+|inf)  )( *)/.exec(element.textContent);
    if (!parts) return line;
    const text = element.firstChild, said = text.splitText(parts[0].length), columns = text.splitText(parts[1].length);
    make('span', element, 'columns').append(columns);
    make('span', element, 'said').append(said);
    line.said = said;
    element.style.setProperty('--depth', parts[3].length / 2);
    return line;
  };
  // an indefinite length ends with the last line inside
  const setEnds = own => {
    const around = [];
    for (const line of own) {
      const home = line.fold ? line.fold.parentNode : line.element.parentNode;
      while (around.length && around[around.length - 1].fold !== home) around.pop();
      line.parent = around[around.length - 1] || null;
      if (line.fold) around.push(line);
    }
    const ends = new Map();
    for (const line of own.slice().reverse()) {
      if (line.to === null) line.to = ends.has(line) ? ends.get(line) : line.middle;
      if (!ends.has(line.parent)) ends.set(line.parent, line.to);
    }
  };
  for (const section of document.querySelectorAll('section')) {
    const doc = { lines: [], pane: section.querySelector('.octets'), columns: null, size: 0, number: 0 };
    for (const element of section.querySelectorAll('p, summary')) {
      const line = readLine(element, doc);
      if (line.from !== undefined) doc.lines.push(line);
    }
    setEnds(doc.lines);
    if (!doc.lines.length) continue;
    documents.push(doc);
    doc.number = documents.length;
  }

  // bytes in rows of 16, or of 8 on a phone: offsets, hex digits, text. Of hex digits each byte has three characters,
  // of which the last is a space or the end of a row
  const phone = matchMedia('(max-width: 60rem)');
  const perRow = () => phone.matches ? 8 : 16;
  const layOut = doc => {
    const per = perRow(), digits = doc.digits, offsets = [], rows = [], texts = [];
    const width = Math.max(4, hex(doc.size).length);
    for (let start = 0; start < doc.size; start += per) {
      const row = digits.slice(3 * start, 3 * (start + per) - 1);
      offsets.push(hex(start).padStart(width, '0'));
      rows.push(row);
      texts.push(row.split(' ').map(it => {
        const code = parseInt(it, 16);
        return code > 31 && code < 127 ? String.fromCharCode(code) : '.';
      }).join(''));
    }
    doc.per = per;
    doc.rows = rows.length;
    doc.pane.textContent = '';
    make('div', doc.pane, 'offsets', offsets.join('\\n'));
    doc.columns = [make('div', doc.pane, 'hex', rows.join('\\n')), make('div', doc.pane, 'text', texts.join('\\n'))];
  };
  for (const doc of documents) {
    doc.digits = doc.pane.textContent.trimEnd();
    doc.size = Math.floor((doc.digits.length + 1) / 3);
    if (doc.size) layOut(doc);
  }
  phone.addEventListener('change', () => documents.forEach(doc => doc.size && layOut(doc)));

  // the bar
  const bar = make('div', body, 'bar');
  body.prepend(bar);
  const field = make('input', bar);
  field.type = 'search';
  field.placeholder = 'Find ( / )';
  field.setAttribute('aria-label', 'Find lines');
  const count = make('output', bar);
  const button = (text, label, act) => {
    const made = make('button', bar, '', text);
    made.type = 'button';
    made.title = label;
    made.setAttribute('aria-label', label);
    made.addEventListener('click', act);
  };
  const setAll = open => document.querySelectorAll('details').forEach(it => { it.open = open; });
  button('\\u2039', 'Previous line found', () => next(-1));
  button('\\u203A', 'Next line found', () => next(1));
  button('Close all', 'Close all folds', () => setAll(false));
  button('Open all', 'Open all folds', () => setAll(true));
  const where = make('span', bar, 'where');
  body.classList.add('ready');
  const setBar = () => document.documentElement.style.setProperty('--bar', `${bar.offsetHeight}px`);
  setBar();
  addEventListener('resize', setBar);

  // marks a line and its bytes
  const highlight = (name, ranges) => {
    if (window.CSS && CSS.highlights) CSS.highlights.set(name, new Highlight(...ranges));
  };
  const rangesOf = (doc, from, to) => {
    const end = Math.min(to, doc.size), start = Math.min(from, end);
    if (!doc.columns || start === end) return [];
    const range = (column, first, last) => {
      const made = new Range();
      made.setStart(column.firstChild, first);
      made.setEnd(column.firstChild, last);
      return made;
    };
    const inText = at => at + Math.floor(at / doc.per);
    return [range(doc.columns[0], 3 * start, 3 * end - 1), range(doc.columns[1], inText(start), inText(end - 1) + 1)];
  };
  let marked = null, chosen = null;
  const mark = line => {
    if (!line || line === marked) return;
    if (marked) marked.element.classList.remove('pointed');
    marked = line;
    line.element.classList.add('pointed');
    const { doc, from, middle, to } = line;
    if (from === undefined) return;
    highlight('header', rangesOf(doc, from, middle));
    highlight('contents', rangesOf(doc, middle, to));
    where.textContent = `offset ${from} = 0x${hex(from)}, header ${middle - from}, contents ${to - middle}`;
  };
  const showBytes = line => {
    const { doc, from } = line;
    if (from === undefined || !doc.columns) return;
    const height = doc.columns[0].offsetHeight / doc.rows, top = Math.floor(from / doc.per) * height;
    const pane = doc.pane, seen = top - pane.scrollTop;
    if (seen < 0 || seen > pane.clientHeight - 3 * height) pane.scrollTop = top - pane.clientHeight / 4;
  };
  const show = (line, block) => {
    for (let it = line.parent; it; it = it.parent) it.fold.open = true;
    line.element.scrollIntoView({ block });
    mark(line);
    showBytes(line);
  };

  // links: the offset in hex digits, behind the number of the document and a colon if it is not the first
  const choose = line => {
    if (chosen) chosen.element.classList.remove('chosen');
    chosen = line;
    line.element.classList.add('chosen');
    if (line.from === undefined) return;
    const link = `#${line.doc.number > 1 ? `${line.doc.number}:` : ''}${hex(line.from)}`;
    // a frame without an address of its own has no links
    try { history.replaceState(null, '', link); } catch { where.textContent += ` ${link}`; }
  };
  // the innermost line that has the byte
  const lineOf = (doc, byte) => {
    let low = 0, high = doc.lines.length;
    while (low < high) {
      const half = (low + high) >> 1;
      if (doc.lines[half].from <= byte) low = half + 1; else high = half;
    }
    let line = doc.lines[low - 1];
    while (line && line.to <= byte && line.from !== byte) line = line.parent;
    return line;
  };
  const follow = () => {
    const link = /^#(?:([0-9]+):)?([0-9a-f]+)$/i.exec(location.hash);
    const doc = link && documents[Number(link[1] || 1) - 1];
    const line = doc && lineOf(doc, parseInt(link[2], 16));
    if (!line) return;
    show(line, 'center');
    choose(line);
  };

  // from a line to its bytes, and from a byte to its line
  const pointedLine = event => ofElement.get(event.target.closest && event.target.closest('.tree p, .tree summary'));
  const pointedByte = (doc, event) => {
    for (const [column, wide, chars] of [[doc.columns[0], 3, 3 * Math.min(doc.per, doc.size) - 1],
      [doc.columns[1], 1, Math.min(doc.per, doc.size)]]) {
      const box = column.getBoundingClientRect();
      const row = Math.floor((event.clientY - box.top) / box.height * doc.rows);
      const char = (event.clientX - box.left) / box.width * chars + (wide - 1) / 4;
      const byte = doc.per * row + Math.floor(char / wide);
      if (char >= 0 && char < wide * doc.per && row >= 0 && byte < doc.size) return byte;
    }
    return null;
  };
  const point = event => {
    const line = pointedLine(event);
    if (!line || line === marked) return;
    mark(line);
    showBytes(line);
  };
  document.addEventListener('mouseover', point);
  document.addEventListener('focusin', point);
  document.addEventListener('click', event => {
    const line = pointedLine(event);
    if (line) choose(line);
  });
  for (const doc of documents) {
    const act = (event, then) => {
      const byte = doc.columns && pointedByte(doc, event);
      const line = byte !== null && lineOf(doc, byte);
      if (line) then(line);
    };
    doc.pane.addEventListener('mousemove', event => act(event, mark));
    doc.pane.addEventListener('click', event => act(event, line => {
      show(line, 'nearest');
      choose(line);
    }));
  }

  // finds lines by what they say
  let found = [], current = -1;
  const showFound = () => {
    count.textContent = field.value ? `${current + 1} of ${found.length}` : '';
    if (found[current]) show(found[current], 'nearest');
  };
  const find = () => {
    const wanted = field.value.toLowerCase(), ranges = [];
    found = [];
    for (const line of wanted ? lines : []) {
      if (line.small === undefined) line.small = line.said ? line.said.data.toLowerCase() : '';
      const at = line.small.indexOf(wanted);
      if (at < 0) continue;
      found.push(line);
      if (ranges.length === 1000 || line.small.length !== line.said.length) continue;
      const range = new Range();
      range.setStart(line.said, at);
      range.setEnd(line.said, at + wanted.length);
      ranges.push(range);
    }
    highlight('found', ranges);
    current = found.length ? 0 : -1;
    showFound();
  };
  const next = step => {
    if (!found.length) return;
    current = (current + step + found.length) % found.length;
    showFound();
  };
  field.addEventListener('input', find);

  // keys: / to the field, Enter to the next line found; arrows from line to line, and into and out of folds
  const isShown = line => line.element.getClientRects().length > 0;
  const step = (line, by) => {
    let it = lines[line.at + by];
    while (it && !isShown(it)) it = lines[it.at + by];
    return it;
  };
  const arrow = (line, key) => {
    if (key === 'ArrowDown') return step(line, 1);
    if (key === 'ArrowUp') return step(line, -1);
    if (key === 'ArrowRight' && line.fold && !line.fold.open) line.fold.open = true;
    else if (key === 'ArrowRight') return step(line, 1);
    else if (key === 'ArrowLeft' && line.fold && line.fold.open) line.fold.open = false;
    else if (key === 'ArrowLeft') return line.parent;
    else return null;
    return line;
  };
  document.addEventListener('keydown', event => {
    if (event.ctrlKey || event.altKey || event.metaKey) return;
    if (event.target === field) {
      if (event.key === 'Enter') next(event.shiftKey ? -1 : 1);
      return;
    }
    const line = ofElement.get(event.target);
    if (event.key === '/') field.focus();
    else if (line && event.key === 'Enter' && !line.fold) choose(line);
    else {
      const to = line && arrow(line, event.key);
      if (!to) return;
      to.element.focus();
    }
    event.preventDefault();
  });

  // the title: the file and the type of the first document
  const name = () => {
    const first = documents[0] && documents[0].lines[0];
    const file = decodeURIComponent(location.pathname.split('/').pop());
    const before = lines.filter(it => first && it.at < first.at).map(it => it.element.textContent)
      .filter(it => it.startsWith('= ')).map(it => it.slice(2));
    const type = first ? first.said.data.split(/[:(,]/)[0].trim() : '';
    const more = documents.length > 1 ? ` and ${documents.length - 1} more` : '';
    return `${[...before, type].filter(it => it).join(', ')}${more} (${file})`;
  };
  document.title = name();
  addEventListener('hashchange', follow);
  follow();
})();
</script></body></html>
";

/// The beginning of a page.
pub fn head() -> &'static [u8] {
    HEAD.as_bytes()
}

/// The end of a page, with its script.
pub fn foot() -> &'static [u8] {
    FOOT.as_bytes()
}
